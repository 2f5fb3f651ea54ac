//! Replies at the door as bytes.

ghost use Rattle.std.specs.Prelude.{◌≡◌, ◌++◌, IfOk, OnOk, string_bytes};
ghost use Rattle.doc_server_status.specs.Replies.{allow_line, head_of, kind_of, length_line, reason_of, status_line, type_line, written};

use doc_page_parts::bytes::Bytes;
use doc_page_parts::failure::Memory;
use doc_page_parts::heap::{Heap, String};
use doc_page_parts::text::Text;
use std::fmt::Write;

/// Room for a head.
const HEAD_ROOM: usize = 192;

/// What is replied, before it is written as a reply.
#[derive(Drop)]
pub struct Shown {
    pub code: u16,
    /// Whether the content is metrics.
    pub metrics: bool,
    pub content: Text,
}

impl Shown {
    /// The whole reply, without the content where only the head is asked for (RFC 9110, section 9.3.2).
    #[tactic(auto, unfolding(crate::specs::Replies::written))]
    pub fn write(&self, heap: Heap, head_only: bool) -> Result<Bytes, Memory>
        ensures { IfOk result (λ bytes. bytes ≡ written self.now head_only) }
    {
        let room = HEAD_ROOM.saturating_add(self.content.get().len());
        let mut out = String::with_capacity(heap, room)?;
        self.push_head(&mut out)?;
        if head_only {
            return Ok(Bytes::new(out.into_bytes()));
        }
        out.push_str(self.content.get())?;
        Ok(Bytes::new(out.into_bytes()))
    }

    /// Writes the head, with the empty line that ends it.
    #[tactic(auto, unfolding(crate::specs::Replies::head_of))]
    fn push_head(&self, out: &mut String) -> Result<(), Memory>
        ensures { OnOk result
            (string_bytes out.new ≡ string_bytes out.old ++ head_of self.now) }
    {
        push_status_line(out, self.code)?;
        push_type_line(out, self.metrics)?;
        push_length_line(out, self.content.get().len())?;
        out.push_str(allow_line(self.code))?;
        out.push_str("Connection: close\r\n\r\n")?;
        Ok(())
    }
}

/// Writes the code and its reason.
#[tactic(auto, unfolding(crate::specs::Replies::status_line))]
fn push_status_line(out: &mut String, code: u16) -> Result<(), Memory>
    ensures { OnOk result (string_bytes out.new ≡ string_bytes out.old ++ status_line code) }
{
    write!(out, "HTTP/1.1 {} {}\r\n", code, reason(code))?;
    Ok(())
}

/// Writes the type of the content.
#[tactic(auto, unfolding(crate::specs::Replies::type_line))]
fn push_type_line(out: &mut String, metrics: bool) -> Result<(), Memory>
    ensures { OnOk result (string_bytes out.new ≡ string_bytes out.old ++ type_line metrics) }
{
    write!(out, "Content-Type: {}\r\n", kind(metrics))?;
    Ok(())
}

/// Writes the length of the content.
#[tactic(auto, unfolding(crate::specs::Replies::length_line))]
fn push_length_line(out: &mut String, len: usize) -> Result<(), Memory>
    ensures { OnOk result (string_bytes out.new ≡ string_bytes out.old ++ length_line len) }
{
    write!(out, "Content-Length: {}\r\n", len)?;
    Ok(())
}

/// The reason phrase of 200, 404, 405 or 503, the codes that are said here.
#[tactic(auto, unfolding(crate::specs::Replies::reason_of))]
pub fn reason(code: u16) -> &'static str
    ensures { result.now ≡ reason_of code }
{
    match code {
        200 => "OK",
        404 => "Not Found",
        503 => "Service Unavailable",
        _ => "Method Not Allowed",
    }
}

/// The type of a content.
fn kind(metrics: bool) -> &'static str
    ensures { result.now ≡ kind_of metrics }
{
    if metrics {
        "text/plain; version=0.0.4; charset=utf-8"
    } else {
        "text/plain; charset=utf-8"
    }
}

/// Which methods there are, where another was used.
fn allow_line(code: u16) -> &'static str
    ensures { result.now ≡ allow_line code }
{
    if code == 405 {
        "Allow: GET, HEAD\r\n"
    } else {
        ""
    }
}
