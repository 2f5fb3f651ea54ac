//! Reading escaped texts.

ghost use Rattle.std.specs.Prelude.{◌≡◌, ◌<◌, length, IfOk, IfSome, MatchOption, None, Some, true};
ghost use Rattle.std.specs.Char.{digit_value, is_ascii_hexdigit};
ghost use Rattle.doc_server_script.specs.Escapes.{behind_backslash, behind_digit, behind_x, hex_byte, in_front, letter, unescaped};

use doc_page_parts::bytes::Bytes;
use doc_page_parts::failure::Memory;
use doc_page_parts::heap::{Heap, Vec};

/// The bytes that an escaped text stands for. `None` says that a backslash in it begins no escape.
#[tactic(auto, unfolding(crate::specs::Escapes::unescaped))]
pub fn unescape(heap: Heap, text: &str) -> Result<Option<Bytes>, Memory>
    ensures { IfOk result (λ bytes. bytes ≡ unescaped text.now) }
{
    let mut bytes = Vec::with_capacity(heap, text.len())?;
    let mut rest = text.as_bytes();
    while !rest.is_empty() {
        let Some((byte, after)) = first_byte(rest) else {
            return Ok(None);
        };
        bytes.push(byte)?;
        rest = after;
    }
    Ok(Some(Bytes::new(bytes)))
}

/// The first byte that an escaped text stands for, and the text behind it.
#[tactic(auto, unfolding(crate::specs::Escapes::unescaped))]
fn first_byte(text: &[u8]) -> Option<(u8, &[u8])>
    requires { 0 < length text.now }
    ensures bytes { MatchOption result (unescaped text.now ≡ None)
        (λ found. unescaped text.now ≡ in_front (Some found.0) (unescaped found.1.now)) }
    ensures shorter { IfSome result (λ found. length found.1.now < length text.now) }
{
    match text {
        [b'\\', rest @ ..] => behind_backslash(rest),
        [byte, rest @ ..] => Some((*byte, rest)),
        [] => None,
    }
}

/// The same behind a backslash.
#[tactic(auto, unfolding(crate::specs::Escapes::unescaped))]
fn behind_backslash(text: &[u8]) -> Option<(u8, &[u8])>
    ensures bytes { MatchOption result (behind_backslash text.now ≡ None)
        (λ found. behind_backslash text.now ≡ in_front (Some found.0) (unescaped found.1.now)) }
    ensures shorter { IfSome result (λ found. length found.1.now < length text.now) }
{
    match text {
        [b'x', rest @ ..] => behind_x(rest),
        [b, rest @ ..] => Some((letter(*b)?, rest)),
        [] => None,
    }
}

/// The same behind the `x` of a byte's number.
#[tactic(auto, unfolding(crate::specs::Escapes::unescaped))]
fn behind_x(text: &[u8]) -> Option<(u8, &[u8])>
    ensures bytes { MatchOption result (behind_x text.now ≡ None)
        (λ found. behind_x text.now ≡ in_front (Some found.0) (unescaped found.1.now)) }
    ensures shorter { IfSome result (λ found. length found.1.now < length text.now) }
{
    match text {
        [high, rest @ ..] => behind_digit(*high, rest),
        [] => None,
    }
}

/// The same behind the first digit of the number.
#[tactic(auto, unfolding(crate::specs::Escapes::unescaped))]
fn behind_digit(high: u8, text: &[u8]) -> Option<(u8, &[u8])>
    ensures bytes { MatchOption result (behind_digit high text.now ≡ None)
        (λ found. behind_digit high text.now ≡ in_front (Some found.0) (unescaped found.1.now)) }
    ensures shorter { IfSome result (λ found. length found.1.now < length text.now) }
{
    match text {
        [low, rest @ ..] => Some((hex_byte(high, *low)?, rest)),
        [] => None,
    }
}

/// The byte that a letter behind a backslash stands for.
fn letter(b: u8) -> Option<u8>
    ensures { result ≡ letter b }
{
    match b {
        b'r' => Some(b'\r'),
        b'n' => Some(b'\n'),
        b'\\' => Some(b'\\'),
        _ => None,
    }
}

/// The byte of two hexadecimal digits.
fn hex_byte(high: u8, low: u8) -> Option<u8>
    ensures { result ≡ hex_byte high low }
{
    if !high.is_ascii_hexdigit() || !low.is_ascii_hexdigit() {
        return None;
    }
    Some(digit_value(high) * 16 + digit_value(low))
}

/// The value of a hexadecimal digit.
fn digit_value(digit: u8) -> u8
    requires { is_ascii_hexdigit digit ≡ true }
    ensures value { result ≡ digit_value digit }
    ensures bound { result < 16 }
{
    match digit {
        b'0'..=b'9' => digit - b'0',
        b'A'..=b'F' => digit - b'A' + 10,
        _ => digit - b'a' + 10,
    }
}
