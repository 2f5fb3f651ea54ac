//! Lines of heads, each written at the end of a buffer.

ghost use Rattle.std.specs.Prelude.{◌≡◌, ◌++◌, ◌<◌, ◌≤◌, length, OnOk, string_bytes, codes, decimal, option_copied};
ghost use Rattle.doc_http_replies.specs.Heads.{cache_line, guard_lines, nosniff_line, policy_line, private_lines, vary_line};
ghost use Rattle.doc_http_replies.specs.PeopleReplies.{typed_lines};
ghost use Rattle.doc_http_replies.specs.Replies.{close_line, field_line, location_line, reason_of, status_of};

use crate::policies::page_policy;
use doc_page_parts::failure::Memory;
use doc_page_parts::heap::String;
use std::fmt::Write;

/// Room for the head of a reply without settings, and for a content of one line.
pub const HEAD_ROOM: usize = 256;

/// Room for the lines that guard a page of a site with settings.
pub const GUARD_ROOM: usize = 384;

/// Room for those that keep a reply from shared caches.
pub const PRIVATE_ROOM: usize = 64;

/// Adds a field line.
#[tactic(auto, unfolding(crate::specs::Replies::field_line))]
pub fn push_field(out: &mut String, name: &str, value: &str) -> Result<(), Memory>
    ensures { OnOk result
        (string_bytes out.new ≡ string_bytes out.old ++ field_line name.now value.now) }
{
    out.push_str(name)?;
    out.push_str(": ")?;
    out.push_str(value)?;
    out.push_str("\r\n")?;
    Ok(())
}

/// Adds the length of the content.
#[tactic(auto, unfolding(crate::specs::Replies::field_line))]
pub fn push_length(out: &mut String, len: usize) -> Result<(), Memory>
    ensures { OnOk result
        (string_bytes out.new
        ≡ string_bytes out.old ++ field_line (codes "Content-Length") (decimal len)) }
{
    write!(out, "Content-Length: {}\r\n", len)?;
    Ok(())
}

/// Adds the code and its reason.
pub fn push_status(out: &mut String, code: u16) -> Result<(), Memory>
    ensures { OnOk result (string_bytes out.new ≡ string_bytes out.old ++ status_of code) }
{
    write!(out, "{} {}", code, reason(code))?;
    Ok(())
}

/// The length of the code and its reason.
pub fn status_len(code: u16) -> usize
    ensures len { result ≡ length (status_of code) }
    ensures short { result < 64 }
{
    digits_len(code) + 1 + reason(code).len()
}

/// The number of digits of a code.
fn digits_len(code: u16) -> usize
    ensures len { result ≡ length (decimal code) }
    ensures few { result ≤ 5 }
{
    match code {
        0..=9 => 1,
        10..=99 => 2,
        100..=999 => 3,
        1000..=9999 => 4,
        _ => 5,
    }
}

/// Adds the status line.
pub fn push_status_line(out: &mut String, code: u16) -> Result<(), Memory>
    ensures { OnOk result (string_bytes out.new
        ≡ string_bytes out.old ++ (codes "HTTP/1.1 " ++ status_of code ++ codes "\r\n")) }
{
    out.push_str("HTTP/1.1 ")?;
    push_status(out, code)?;
    out.push_str("\r\n")?;
    Ok(())
}

/// Adds where the resource is.
pub fn push_location(out: &mut String, location: Option<&str>) -> Result<(), Memory>
    ensures { OnOk result
        (string_bytes out.new
        ≡ string_bytes out.old ++ location_line (option_copied location.entry)) }
{
    match location {
        Some(location) => push_field(out, "Location", location),
        None => Ok(()),
    }
}

/// Adds the type of a content, and its length.
#[tactic(auto, unfolding(crate::specs::PeopleReplies::typed_lines))]
pub fn push_typed_lines(out: &mut String, kind: &str, content: &[u8]) -> Result<(), Memory>
    ensures { OnOk result
        (string_bytes out.new ≡ string_bytes out.old ++ typed_lines kind.now content.now) }
{
    push_field(out, "Content-Type", kind)?;
    push_length(out, content.len())
}

/// Adds what the HTML of a page may do.
#[tactic(auto, unfolding(crate::specs::Heads::policy_line))]
pub fn push_policy(out: &mut String) -> Result<(), Memory>
    ensures { OnOk result (string_bytes out.new ≡ string_bytes out.old ++ policy_line) }
{
    push_field(out, "Content-Security-Policy", page_policy())
}

/// Adds that the content is what its type says.
#[tactic(auto, unfolding(crate::specs::Heads::nosniff_line))]
pub fn push_nosniff(out: &mut String) -> Result<(), Memory>
    ensures { OnOk result (string_bytes out.new ≡ string_bytes out.old ++ nosniff_line) }
{
    push_field(out, "X-Content-Type-Options", "nosniff")
}

/// Adds that no shared cache keeps the reply, and what else is answered at its address.
pub fn push_privacy(out: &mut String) -> Result<(), Memory>
    ensures { OnOk result (string_bytes out.new ≡ string_bytes out.old ++ private_lines) }
{
    push_cache(out)?;
    push_vary(out)
}

/// Adds that no shared cache keeps the reply, and that a browser asks anew.
#[tactic(auto, unfolding(crate::specs::Heads::cache_line))]
pub fn push_cache(out: &mut String) -> Result<(), Memory>
    ensures { OnOk result (string_bytes out.new ≡ string_bytes out.old ++ cache_line) }
{
    push_field(out, "Cache-Control", "private, no-cache")
}

#[tactic(auto, unfolding(crate::specs::Heads::vary_line))]
fn push_vary(out: &mut String) -> Result<(), Memory>
    ensures { OnOk result (string_bytes out.new ≡ string_bytes out.old ++ vary_line) }
{
    push_field(out, "Vary", "Accept, Authorization")
}

/// Adds what keeps a reply to its reader, and its HTML from acting by itself.
pub fn push_guards(out: &mut String, guarded: bool, private: bool) -> Result<(), Memory>
    ensures { OnOk result
        (string_bytes out.new ≡ string_bytes out.old ++ guard_lines guarded private) }
{
    if guarded {
        push_policy(out)?;
        push_nosniff(out)?;
        return push_privacy(out);
    }
    if private {
        return push_privacy(out);
    }
    Ok(())
}

/// Adds that no further request is read.
pub fn push_close(out: &mut String, close: bool) -> Result<(), Memory>
    ensures { OnOk result (string_bytes out.new ≡ string_bytes out.old ++ close_line close) }
{
    if close {
        push_field(out, "Connection", "close")
    } else {
        Ok(())
    }
}

/// The reason phrase of a code; empty where a reply has not the code.
#[tactic(auto, unfolding(crate::specs::Replies::reason_of))]
pub fn reason(code: u16) -> &'static str
    ensures { result.now ≡ reason_of code }
{
    match code {
        200 => "OK",
        201 => "Created",
        204 => "No Content",
        301 => "Moved Permanently",
        304 => "Not Modified",
        400 => "Bad Request",
        401 => "Unauthorized",
        403 => "Forbidden",
        404 => "Not Found",
        405 => "Method Not Allowed",
        409 => "Conflict",
        412 => "Precondition Failed",
        413 => "Content Too Large",
        415 => "Unsupported Media Type",
        431 => "Request Header Fields Too Large",
        501 => "Not Implemented",
        507 => "Insufficient Storage",
        _ => "",
    }
}
