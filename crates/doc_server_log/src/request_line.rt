//! The first line of a request, as the log writes it: its method, and its target without the query. What a field of the head says, as a
//! token, isn't among it.

ghost use Rattle.std.specs.Prelude.{◌≡◌, ◌++◌, ◌∷◌, string_bytes, OnOk};
ghost use Rattle.std.specs.Char.{is_ascii_uppercase};
ghost use Rattle.std.specs.List.{list_all};
ghost use Rattle.doc_server_log.specs.RequestLines.{before_query, is_rooted, is_shown, shown_method, shown_path, shown_target};

use doc_http_bodies::slices::front;
use doc_page_parts::failure::Memory;
use doc_page_parts::heap::String;
use percent_encoding::{AsciiSet, CONTROLS, ascii_set, percent_encode};

/// How many bytes a method has at most that is written.
const METHOD_LIMIT: usize = 16;

/// How many bytes of a path are written.
pub(crate) const PATH_LIMIT: usize = 1_000;

/// What is written by a number: controls, spaces, and all that isn't ASCII.
pub(crate) const HIDDEN: AsciiSet = ascii_set!(CONTROLS.add(b' '));

/// Method and target of the first line of bytes that are no request, where that line has the form of a request's.
pub fn first_line(bytes: &[u8]) -> Option<(&str, &str)> {
    let end = bytes.iter().position(|byte| ends_line(*byte))?;
    let line = bytes.get(..end)?;
    let Ok(text) = std::str::from_utf8(line) else {
        return None;
    };
    let (method, rest) = text.split_once(' ')?;
    let (target, version) = rest.split_once(' ')?;
    match version {
        "HTTP/1.0" | "HTTP/1.1" => Some((method, target)),
        _ => None,
    }
}

fn ends_line(byte: u8) -> bool {
    matches!(byte, b'\r' | b'\n')
}

/// Writes a method, a space and a target.
pub fn push_request_line(out: &mut String, method: &str, target: &str) -> Result<(), Memory>
    ensures { OnOk result (string_bytes out.new ≡ string_bytes out.old
        ++ (shown_method method.now ++ 32 ∷ shown_target target.now)) }
{
    push_method(out, method)?;
    out.push_str(" ")?;
    push_target(out, target)
}

/// Writes a method, `-` where it isn't 1 to 16 capital letters.
pub(crate) fn push_method(out: &mut String, method: &str) -> Result<(), Memory>
    ensures { OnOk result
        (string_bytes out.new ≡ string_bytes out.old ++ shown_method method.now) }
{
    if is_shown(method.as_bytes()) {
        out.push_str(method)?;
    } else {
        out.push_str("-")?;
    }
    Ok(())
}

/// Whether these are 1 to 16 capital letters.
fn is_shown(method: &[u8]) -> bool
    ensures { result ≡ is_shown method.now }
{
    !method.is_empty() && method.len() <= METHOD_LIMIT && are_capitals(method)
}

fn are_capitals(bytes: &[u8]) -> bool
    ensures { result ≡ list_all is_ascii_uppercase bytes.now }
{
    bytes.iter().all(|byte| byte.is_ascii_uppercase())
}

/// Writes a target without its query, `-` where it doesn't begin with a slash.
fn push_target(out: &mut String, target: &str) -> Result<(), Memory>
    ensures { OnOk result
        (string_bytes out.new ≡ string_bytes out.old ++ shown_target target.now) }
{
    let path = before_query(target);
    if is_rooted(path) {
        push_path(out, path.as_bytes())?;
    } else {
        out.push_str("-")?;
    }
    Ok(())
}

/// Whether it begins with a slash.
pub(crate) fn is_rooted(path: &str) -> bool
    ensures { result ≡ is_rooted path.now }
{
    path.starts_with('/')
}

/// What stands before the first `?`.
pub(crate) fn before_query(target: &str) -> &str
    ensures { result.now ≡ before_query target.now }
{
    match target.split_once('?') {
        Some((path, _)) => path,
        None => target,
    }
}

/// Writes a path, cut where it is too long.
fn push_path(out: &mut String, path: &[u8]) -> Result<(), Memory>
    ensures { OnOk result
        (string_bytes out.new ≡ string_bytes out.old ++ shown_path path.now) }
{
    percent_encode(front(path, PATH_LIMIT), HIDDEN).append_to(out)?;
    if path.len() <= PATH_LIMIT {
        return Ok(());
    }
    out.push_str("...")?;
    Ok(())
}
