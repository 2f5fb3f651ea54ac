//! The fields of a head.

ghost use Rattle.std.specs.Prelude.{◌≡◌, ◌≤◌, ◌==◌, ℕ, length, map, reverse, All};
ghost use Rattle.std.specs.List.{prefix_len};
ghost use Rattle.std.specs.Option.{option_copied};
ghost use Rattle.httparse.specs.Grammar.{trim_ows, is_ows as ows_test};
ghost use Rattle.httparse.specs.Spans.{IsHeaderWithin, header_bytes};
ghost use Rattle.doc_http.specs.Fields.{count_named as count_of, value_named as value_of, is_close as close_test, lists_close as list_test, has_good_counts as counts_test, asks_close as close_asked};

use doc_http_bodies::blanks::is_space_or_tab;
use doc_http_bodies::names::is_named;
use httparse::spans::HeaderSpan;

/// How many of the fields have the name.
pub fn count_named(text: &[u8], headers: &[HeaderSpan], name: &[u8]) -> usize
    requires { All (IsHeaderWithin (length text.now)) headers.now }
    ensures { result ≡ count_of name.now (map (header_bytes text.now) headers.now) }
{
    let mut count = 0;
    'headers: for header in headers {
        if is_named(header.name.of(text), name) {
            count += 1;
        }
    }
    count
}

/// The value of the first field of the name.
pub fn value_named<'a>(text: &'a [u8], headers: &[HeaderSpan], name: &[u8]) -> Option<&'a [u8]>
    requires { All (IsHeaderWithin (length text.now)) headers.now }
    ensures { option_copied result ≡ value_of name.now (map (header_bytes text.now) headers.now) }
{
    'headers: for header in headers {
        if is_named(header.name.of(text), name) {
            return Some(header.value.of(text));
        }
    }
    None
}

/// Whether the head has the Host and Authorization fields that it may have.
pub fn has_good_counts(text: &[u8], headers: &[HeaderSpan], minor: u8) -> bool
    requires { All (IsHeaderWithin (length text.now)) headers.now }
    ensures { result ≡ counts_test minor (map (header_bytes text.now) headers.now) }
{
    let hosts = count_named(text, headers, b"host");
    let has_good_hosts = if minor == 0 { hosts <= 1 } else { hosts == 1 };
    count_named(text, headers, b"authorization") <= 1 && has_good_hosts
}

/// Whether the connection ends after the reply.
pub fn asks_close(text: &[u8], headers: &[HeaderSpan], minor: u8) -> bool
    requires { All (IsHeaderWithin (length text.now)) headers.now }
    ensures { result ≡ close_asked minor (map (header_bytes text.now) headers.now) }
{
    if minor == 0 {
        return true;
    }
    'headers: for header in headers {
        if is_named(header.name.of(text), b"connection") && lists_close(header.value.of(text)) {
            return true;
        }
    }
    false
}

/// Whether a list of connection options has `close`.
fn lists_close(value: &[u8]) -> bool
    ensures { result ≡ list_test value.now }
{
    value.split(|byte| *byte == b',').any(|part| is_close(part))
}

/// Whether a part of such a list is `close`, in any case.
fn is_close(part: &[u8]) -> bool
    ensures { result ≡ close_test part.now }
{
    trim_blanks(part).eq_ignore_ascii_case(b"close")
}

/// The text without the spaces and tabs at both ends.
pub fn trim_blanks(text: &[u8]) -> &[u8]
    ensures { result.now ≡ trim_ows text.now }
{
    let text = &text[blanks_at_front(text)..];
    &text[..text.len() - blanks_at_back(text)]
}

/// How many spaces and tabs stand at the front.
fn blanks_at_front(text: &[u8]) -> usize
    ensures count { result ≡ prefix_len ows_test text.now }
    ensures within { result ≤ length text.now }
{
    text.iter()
        .take_while(|byte| is_space_or_tab(**byte))
        .count()
}

/// How many spaces and tabs stand at the back.
fn blanks_at_back(text: &[u8]) -> usize
    ensures count { result ≡ prefix_len ows_test (reverse text.now) }
    ensures within { result ≤ length text.now }
{
    text.iter()
        .rev()
        .take_while(|byte| is_space_or_tab(**byte))
        .count()
}
