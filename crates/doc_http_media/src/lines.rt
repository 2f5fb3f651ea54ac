//! Lines of the heads of media, each written at the end of a buffer.

ghost use Rattle.std.specs.Prelude.{◌≡◌, ◌++◌, OnOk, string_bytes, codes, decimal};
ghost use Rattle.doc_http_replies.specs.Heads.{nosniff_line, private_lines};
ghost use Rattle.doc_http_replies.specs.PeopleReplies.{typed_lines};
ghost use Rattle.doc_http_replies.specs.Replies.{close_line, field_line, status_of, where_true};
ghost use Rattle.doc_http_media.specs.MediumReplies.{box_line, saved_line};

use doc_page_parts::failure::Memory;
use doc_page_parts::heap::String;
use std::fmt::Write;

/// Adds the status line.
pub fn push_status_line(out: &mut String) -> Result<(), Memory>
    ensures { OnOk result (string_bytes out.new
        ≡ string_bytes out.old ++ (codes "HTTP/1.1 " ++ status_of 200 ++ codes "\r\n")) }
{
    out.push_str("HTTP/1.1 200 OK\r\n")?;
    Ok(())
}

/// Adds the type of a content, and its length.
#[tactic(auto, unfolding(doc_http_replies::specs::PeopleReplies::typed_lines))]
pub fn push_typed_lines(out: &mut String, kind: &str, content: &[u8]) -> Result<(), Memory>
    ensures { OnOk result
        (string_bytes out.new ≡ string_bytes out.old ++ typed_lines kind.now content.now) }
{
    push_field(out, "Content-Type", kind)?;
    push_length(out, content.len())
}

/// Adds a field line.
#[tactic(auto, unfolding(doc_http_replies::specs::Replies::field_line))]
fn push_field(out: &mut String, name: &str, value: &str) -> Result<(), Memory>
    ensures { OnOk result
        (string_bytes out.new ≡ string_bytes out.old ++ field_line name.now value.now) }
{
    out.push_str(name)?;
    out.push_str(": ")?;
    out.push_str(value)?;
    out.push_str("\r\n")?;
    Ok(())
}

#[tactic(auto, unfolding(doc_http_replies::specs::Replies::field_line))]
fn push_length(out: &mut String, len: usize) -> Result<(), Memory>
    ensures { OnOk result (string_bytes out.new
        ≡ string_bytes out.old ++ field_line (codes "Content-Length") (decimal len)) }
{
    write!(out, "Content-Length: {}\r\n", len)?;
    Ok(())
}

/// Adds what may be done by what stands in it, where it is boxed in.
#[tactic(auto, unfolding(crate::specs::MediumReplies::box_line, doc_http_replies::specs::Replies::field_line))]
pub fn push_box(out: &mut String, boxed: bool) -> Result<(), Memory>
    ensures { OnOk result
        (string_bytes out.new ≡ string_bytes out.old ++ where_true boxed box_line) }
{
    if boxed {
        out.push_str(
            "Content-Security-Policy: default-src 'none'; style-src 'unsafe-inline'; sandbox\r\n",
        )?;
    }
    Ok(())
}

/// Adds that the content is what its type says.
#[tactic(auto, unfolding(doc_http_replies::specs::Heads::nosniff_line, doc_http_replies::specs::Replies::field_line))]
pub fn push_nosniff(out: &mut String) -> Result<(), Memory>
    ensures { OnOk result (string_bytes out.new ≡ string_bytes out.old ++ nosniff_line) }
{
    out.push_str("X-Content-Type-Options: nosniff\r\n")?;
    Ok(())
}

/// Adds that a browser saves it, where it does.
#[tactic(auto, unfolding(crate::specs::MediumReplies::saved_line, doc_http_replies::specs::Replies::field_line))]
pub fn push_saved(out: &mut String, saved: bool) -> Result<(), Memory>
    ensures { OnOk result
        (string_bytes out.new ≡ string_bytes out.old ++ where_true saved saved_line) }
{
    if saved {
        out.push_str("Content-Disposition: attachment\r\n")?;
    }
    Ok(())
}

/// Adds that no shared cache keeps it, where none does, and that another client is answered something else at its address.
#[tactic(auto, unfolding(doc_http_replies::specs::Heads::cache_line, doc_http_replies::specs::Heads::vary_line, doc_http_replies::specs::Replies::field_line))]
pub fn push_private(out: &mut String, private: bool) -> Result<(), Memory>
    ensures { OnOk result
        (string_bytes out.new ≡ string_bytes out.old ++ where_true private private_lines) }
{
    if private {
        out.push_str("Cache-Control: private, no-cache\r\nVary: Accept, Authorization\r\n")?;
    }
    Ok(())
}

/// Adds that no further request is read.
#[tactic(auto, unfolding(doc_http_replies::specs::Replies::field_line))]
pub fn push_close(out: &mut String, close: bool) -> Result<(), Memory>
    ensures { OnOk result (string_bytes out.new ≡ string_bytes out.old ++ close_line close) }
{
    if close {
        out.push_str("Connection: close\r\n")?;
    }
    Ok(())
}
