//! A line of the log as JSON.

ghost use Rattle.std.specs.Prelude.{◌≡◌, ◌<◌, ◌∷◌, [], ◌++◌, IfNone, IfSome, OnOk, string_bytes};
ghost use Rattle.percent_encoding.specs.Percent.{encode_byte};
ghost use Rattle.doc_server_log.specs.JsonLines.{IsOneLine, asking_members, escaped, json_line, reply_members, request_members, time_value};
ghost use Rattle.doc_server_log.specs.declared.request_line.TheConstants.{HIDDEN};
ghost use Rattle.doc_server_log.specs.Readers.{IsNamed};
ghost use Rattle.doc_server_log.specs.RequestLines.{shown_path, shown_target};

use crate::entry::Entry;
use crate::moment::Moment;
use crate::request_line::{HIDDEN, PATH_LIMIT, before_query, is_rooted, push_method};
use doc_http_bodies::slices::front;
use doc_page_parts::failure::Memory;
use doc_page_parts::heap::String;
use percent_encoding::percent_encode_byte;
use std::fmt::Write;

/// Writes the line of an entry: an object (RFC 8259) and a line feed. Method and path are those of the plain form.
pub fn push_json(out: &mut String, entry: &Entry<'_>) -> Result<(), Memory>
    ensures written { OnOk result
        (string_bytes out.new ≡ string_bytes out.old ++ json_line entry.now) }
    ensures one_line { OnOk result (IsOneLine (json_line entry.now)) }
{
    out.push_str("{\"time\":")?;
    push_time(out, entry.time)?;
    push_asking(out, entry)?;
    push_request(out, entry)?;
    push_reply(out, entry)?;
    out.push_str("}\n")?;
    Ok(())
}

/// Writes a moment as a string, or `null`.
fn push_time(out: &mut String, time: Option<Moment>) -> Result<(), Memory>
    ensures { OnOk result (string_bytes out.new ≡ string_bytes out.old ++ time_value time) }
{
    let Some(time) = time else {
        out.push_str("null")?;
        return Ok(());
    };
    out.push_str("\"")?;
    time.push(out)?;
    out.push_str("\"")?;
    Ok(())
}

/// Writes who asked, and on which connection.
fn push_asking(out: &mut String, entry: &Entry<'_>) -> Result<(), Memory>
    ensures written { OnOk result
        (string_bytes out.new ≡ string_bytes out.old ++ asking_members entry.now) }
    ensures named { OnOk result (IsNamed entry.now.reader) }
{
    write!(out, ",\"conn\":{},\"reader\":\"", entry.connection)?;
    entry.reader.push(out)?;
    out.push_str("\"")?;
    Ok(())
}

/// Writes what was asked for.
fn push_request(out: &mut String, entry: &Entry<'_>) -> Result<(), Memory>
    ensures { OnOk result (string_bytes out.new ≡ string_bytes out.old ++ request_members entry.now) }
{
    out.push_str(",\"method\":\"")?;
    push_method(out, entry.method)?;
    out.push_str("\",\"path\":\"")?;
    push_escaped_target(out, entry.target)?;
    out.push_str("\"")?;
    Ok(())
}

/// Writes what was replied.
fn push_reply(out: &mut String, entry: &Entry<'_>) -> Result<(), Memory>
    ensures { OnOk result (string_bytes out.new ≡ string_bytes out.old ++ reply_members entry.now) }
{
    write!(
        out,
        ",\"code\":{},\"bytes\":{},\"us\":{}",
        entry.code, entry.bytes, entry.micros,
    )?;
    Ok(())
}

/// Writes a target as the plain form does, inside a string.
fn push_escaped_target(out: &mut String, target: &str) -> Result<(), Memory>
    ensures { OnOk result
        (string_bytes out.new ≡ string_bytes out.old ++ escaped (shown_target target.now)) }
{
    let path = before_query(target);
    if is_rooted(path) {
        return push_escaped_path(out, path.as_bytes());
    }
    out.push_str("-")?;
    Ok(())
}

/// Writes a path as the plain form does, inside a string.
fn push_escaped_path(out: &mut String, path: &[u8]) -> Result<(), Memory>
    ensures { OnOk result
        (string_bytes out.new ≡ string_bytes out.old ++ escaped (shown_path path.now)) }
{
    for byte in front(path, PATH_LIMIT) {
        push_escaped_byte(out, *byte)?;
    }
    if path.len() <= PATH_LIMIT {
        return Ok(());
    }
    out.push_str("...")?;
    Ok(())
}

/// Writes a byte of a path, inside a string.
fn push_escaped_byte(out: &mut String, byte: u8) -> Result<(), Memory>
    ensures { OnOk result
        (string_bytes out.new ≡ string_bytes out.old ++ escaped (encode_byte HIDDEN byte)) }
{
    match escape(byte) {
        Some(escape) => out.push_str(escape)?,
        None => out.push(char::from(byte))?,
    }
    Ok(())
}

/// What stands for a byte of a path inside a string, where it isn't written as it is.
fn escape(byte: u8) -> Option<&'static str>
    ensures written { IfSome result (λ text. text.now ≡ escaped (encode_byte HIDDEN byte)) }
    ensures plain { IfNone result (byte ∷ [] ≡ escaped (encode_byte HIDDEN byte)) }
    ensures ascii { IfNone result (byte < 128) }
{
    if HIDDEN.should_percent_encode(byte) {
        return Some(percent_encode_byte(byte));
    }
    match byte {
        b'"' => Some("\\\""),
        b'\\' => Some("\\\\"),
        _ => None,
    }
}
