//! Request lines (RFC 9112, section 3).

ghost use Rattle.std.specs.Prelude.{◌≡◌, ◌&&◌};
ghost use Rattle.std.specs.List.{list_all};
ghost use Rattle.std.specs.Option.{option_map};
ghost use Rattle.doc_server_status.specs.RequestLines.{asked_in, is_method, is_target, is_target_byte, is_token_byte, is_version, line_of};

use crate::cut::cut_at;

/// How many bytes a request line has at most.
const LINE_LIMIT: usize = 1_024;

/// What a request line says.
#[derive(Clone, Copy)]
pub struct RequestLine<'a> {
    pub method: &'a [u8],
    pub target: &'a [u8],
}

/// What this line says, where it is a request line of at most 1,024 bytes.
#[tactic(auto, unfolding(crate::specs::RequestLines::asked_in))]
pub fn read(line: &[u8]) -> Option<RequestLine<'_>>
    ensures { option_map line_of result ≡ asked_in line.now }
{
    if line.len() > LINE_LIMIT {
        return None;
    }
    let Some(first) = cut_at(b' ', line) else {
        return None;
    };
    let Some(second) = cut_at(b' ', first.behind) else {
        return None;
    };
    if !is_line(first.front, second.front, second.behind) {
        return None;
    }
    Some(RequestLine {
        method: first.front,
        target: second.front,
    })
}

/// Whether these three make a request line.
fn is_line(method: &[u8], target: &[u8], version: &[u8]) -> bool
    ensures { result ≡ (is_method method.now && is_target target.now && is_version version.now) }
{
    is_method(method) && is_target(target) && is_version(version)
}

/// Whether it is a token (RFC 9110, section 5.6.2).
fn is_method(text: &[u8]) -> bool
    ensures { result ≡ is_method text.now }
{
    !text.is_empty() && has_token_bytes(text)
}

fn has_token_bytes(text: &[u8]) -> bool
    ensures { result ≡ list_all is_token_byte text.now }
{
    text.iter().all(|byte| is_token_byte(*byte))
}

fn is_token_byte(byte: u8) -> bool
    ensures { result ≡ is_token_byte byte }
{
    byte.is_ascii_alphanumeric() || b"!#$%&'*+-.^_`|~".contains(&byte)
}

/// Whether it has printable characters of ASCII alone, and one at least.
fn is_target(text: &[u8]) -> bool
    ensures { result ≡ is_target text.now }
{
    !text.is_empty() && has_target_bytes(text)
}

fn has_target_bytes(text: &[u8]) -> bool
    ensures { result ≡ list_all is_target_byte text.now }
{
    text.iter().all(|byte| is_target_byte(*byte))
}

fn is_target_byte(byte: u8) -> bool
    ensures { result ≡ is_target_byte byte }
{
    byte.is_ascii_graphic()
}

fn is_version(text: &[u8]) -> bool
    ensures { result ≡ is_version text.now }
{
    text == b"HTTP/1.1".as_slice() || text == b"HTTP/1.0".as_slice()
}
