//! Which requests ask for the pages for people.

ghost use Rattle.std.specs.Prelude.{◌≡◌, ◌≤◌, ◌==◌, not, length, map, codes, All};
ghost use Rattle.std.specs.List.{before_first, list_any, prefix_len};
ghost use Rattle.httparse.specs.Spans.{IsHeaderWithin, header_bytes};
ghost use Rattle.doc_http_bodies.specs.Fields.{values_named};
ghost use Rattle.doc_http.specs.Accepts.{is_html, media_range, names_html, ranges};

use crate::fields::trim_blanks;
use doc_http_bodies::names::is_named;
use httparse::spans::HeaderSpan;

/// Whether some Accept field names `text/html` (RFC 9110, section 12.5.1). Weights aren't read, and a range
/// with `*` doesn't name it: this project's choice.
#[tactic(auto, unfolding(crate::specs::Accepts::names_html))]
pub fn asks_html(text: &[u8], headers: &[HeaderSpan]) -> bool
    requires { All (IsHeaderWithin (length text.now)) headers.now }
    ensures { result
        ≡ names_html (values_named (codes "accept") (map (header_bytes text.now) headers.now)) }
{
    'headers: for header in headers {
        if is_named(header.name.of(text), b"accept") && lists_html(header.value.of(text)) {
            return true;
        }
    }
    false
}

/// Whether a list of media ranges names `text/html`.
fn lists_html(value: &[u8]) -> bool
    ensures { result ≡ list_any is_html (ranges value.now) }
{
    value.split(|byte| *byte == b',').any(|part| is_html(part))
}

/// Whether a part of such a list names `text/html`, in any case.
fn is_html(part: &[u8]) -> bool
    ensures { result ≡ is_html part.now }
{
    media_range(part).eq_ignore_ascii_case(b"text/html")
}

/// The media range of a part, without its parameters.
pub fn media_range(part: &[u8]) -> &[u8]
    ensures { result.now ≡ media_range part.now }
{
    trim_blanks(before_parameters(part))
}

/// What stands before the first semicolon.
fn before_parameters(part: &[u8]) -> &[u8]
    ensures { result.now ≡ before_first (λ b. b == 59) part.now }
{
    &part[..first_semicolon(part)]
}

/// How many bytes stand before the first semicolon.
fn first_semicolon(part: &[u8]) -> usize
    ensures count { result ≡ prefix_len (λ b. not (b == 59)) part.now }
    ensures within { result ≤ length part.now }
{
    part.iter().take_while(|byte| **byte != b';').count()
}
