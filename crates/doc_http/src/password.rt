//! The password of a login.

ghost use Rattle.std.specs.Prelude.{◌≡◌, ◌==◌, not, IfOk, position, codes};
ghost use Rattle.std.specs.List.{list_all};
ghost use Rattle.std.specs.Option.{option_copied};
ghost use Rattle.std.specs.Str.{chars, str_eq_ignore_ascii_case};
ghost use Rattle.base64.specs.Engines.{standard};
ghost use Rattle.base64.specs.GeneralPurpose.{decoded_of};
ghost use Rattle.doc_page_parts.specs.Paths.{is_control};
ghost use Rattle.doc_http.specs.Passwords.{basic_text, is_user, password_behind, password_in, password_of, text_behind};

use crate::bearer::{first_space, skip_spaces, text_of};
use base64::DecodeAllocError;
use base64::engine::general_purpose::STANDARD;
use doc_page_parts::bytes::Bytes;
use doc_page_parts::failure::Memory;
use doc_page_parts::heap::Heap;
use doc_page_parts::text::Text;
use doc_page_parts::token::is_token;
use std::str::from_utf8;

/// The token that stands as the password of a value of an Authorization field, `Basic TEXT` (RFC 7617): the
/// scheme in any case, one or more spaces, and the base64 (RFC 4648, section 4) of a name, a colon and a
/// token. The name is UTF-8 without control characters, perhaps empty, and tells nothing. Any other value has
/// none.
///
/// Memory is taken for the bytes of the text, and for the token.
#[tactic(auto, unfolding(crate::specs::Passwords::password_in))]
pub fn password(heap: Heap, value: &[u8]) -> Result<Option<Text>, Memory>
    ensures { IfOk result (λ password. password ≡ password_in value.now) }
{
    let Some(text) = basic_text(value) else {
        return Ok(None);
    };
    let Some(bytes) = decoded(heap, text)? else {
        return Ok(None);
    };
    copied_password(heap, bytes.get())
}

/// The text of a login.
fn basic_text(value: &[u8]) -> Option<&[u8]>
    ensures { option_copied result ≡ basic_text value.now }
{
    let Some(space) = first_space(value) else {
        return None;
    };
    let (scheme, rest) = value.split_at(space);
    text_behind(scheme, skip_spaces(rest))
}

/// The text, where it stands behind the scheme of logins.
fn text_behind<'a>(scheme: &[u8], text: &'a [u8]) -> Option<&'a [u8]>
    ensures { option_copied result ≡ text_behind scheme.now text.now }
{
    if is_basic(scheme) { Some(text) } else { None }
}

/// Whether the scheme is that of logins.
fn is_basic(scheme: &[u8]) -> bool
    ensures { result ≡ str_eq_ignore_ascii_case scheme.now (codes "basic") }
{
    scheme.eq_ignore_ascii_case(b"basic")
}

/// The bytes of which the text is the base64, where there are such.
fn decoded(heap: Heap, text: &[u8]) -> Result<Option<Bytes>, Memory>
    ensures { IfOk result (λ bytes. bytes ≡ decoded_of standard text.now) }
{
    match STANDARD.decode(heap, text) {
        Ok(bytes) => Ok(Some(Bytes::new(bytes))),
        Err(DecodeAllocError::DecodeError(_)) => Ok(None),
        Err(DecodeAllocError::OutOfMemory) => Err(Memory),
    }
}

/// The password of a login's bytes, as a text of its own.
fn copied_password(heap: Heap, bytes: &[u8]) -> Result<Option<Text>, Memory>
    ensures { IfOk result (λ password. password ≡ password_of bytes.now) }
{
    match password_of(bytes) {
        Some(password) => Ok(Some(Text::copy_of(heap, password)?)),
        None => Ok(None),
    }
}

/// The password of a login's bytes.
fn password_of(bytes: &[u8]) -> Option<&str>
    ensures { option_copied result ≡ password_of bytes.now }
{
    let Some(colon) = first_colon(bytes) else {
        return None;
    };
    password_behind(&bytes[..colon], &bytes[colon + 1..])
}

/// The password, where it is a token and stands behind a name that may stand there.
fn password_behind<'a>(user: &[u8], password: &'a [u8]) -> Option<&'a str>
    ensures { option_copied result ≡ password_behind user.now password.now }
{
    if is_user(user) && is_token(password) {
        Some(text_of(password))
    } else {
        None
    }
}

/// The place of the first colon.
fn first_colon(bytes: &[u8]) -> Option<usize>
    ensures { result ≡ position (λ b. b == 58) bytes.now }
{
    bytes.iter().position(|byte| *byte == b':')
}

/// Whether the bytes are a name that may stand in a login.
fn is_user(bytes: &[u8]) -> bool
    ensures { result ≡ is_user bytes.now }
{
    match from_utf8(bytes) {
        Ok(user) => has_no_controls(user),
        Err(_) => false,
    }
}

fn has_no_controls(text: &str) -> bool
    ensures { result ≡ list_all (λ c. not (is_control c)) (chars text.now) }
{
    text.chars().all(|c| !is_control(c))
}

fn is_control(c: char) -> bool
    ensures { result ≡ is_control c }
{
    c < ' ' || ('\u{7f}'..='\u{9f}').contains(&c)
}
