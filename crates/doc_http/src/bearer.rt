//! The bearer token of a request.

ghost use Rattle.std.specs.Prelude.{◌≡◌, ◌≤◌, ◌==◌, IsTrue, Some, length, position, codes};
ghost use Rattle.std.specs.Str.{str_eq_ignore_ascii_case};
ghost use Rattle.std.specs.List.{prefix_len};
ghost use Rattle.std.specs.Option.{option_copied};
ghost use Rattle.doc_page_parts.specs.Tokens.{is_token as token_test};
ghost use Rattle.doc_http.specs.Bearers.{bearer_of, bearer_in as bearer_by, token_behind as token_by, skip_spaces as without_spaces};

use crate::request::Request;
use doc_page_parts::token::is_token;
use std::str::from_utf8;

/// The token of a request's `Authorization: Bearer TOKEN` (RFC 6750, section 2.1): the scheme in any
/// case, one or more spaces, and a token. Any other value has none.
#[tactic(auto, unfolding(crate::specs::Bearers::bearer_of))]
pub fn bearer(request: &Request) -> Option<&str>
    ensures { option_copied result ≡ bearer_of request.now }
{
    match &request.authorization {
        Some(value) => bearer_in(value.get()),
        None => None,
    }
}

/// The token of a value of an Authorization field.
fn bearer_in(value: &[u8]) -> Option<&str>
    ensures { option_copied result ≡ bearer_by (Some value.now) }
{
    let Some(space) = first_space(value) else {
        return None;
    };
    let (scheme, rest) = value.split_at(space);
    token_behind(scheme, skip_spaces(rest))
}

/// The token, where it is one and stands behind the scheme of bearer tokens.
fn token_behind<'a>(scheme: &[u8], token: &'a [u8]) -> Option<&'a str>
    ensures { option_copied result ≡ token_by scheme.now token.now }
{
    if is_bearer(scheme) && is_token(token) {
        Some(text_of(token))
    } else {
        None
    }
}

/// Whether the scheme is that of bearer tokens.
fn is_bearer(scheme: &[u8]) -> bool
    ensures { result ≡ str_eq_ignore_ascii_case scheme.now (codes "bearer") }
{
    scheme.eq_ignore_ascii_case(b"bearer")
}

/// A token as text.
pub(crate) fn text_of(token: &[u8]) -> &str
    requires { IsTrue (token_test token.now) }
    ensures { result.now ≡ token.now }
{
    let Ok(text) = from_utf8(token) else {
        unreachable!()
    };
    text
}

/// The place of the first space.
pub(crate) fn first_space(bytes: &[u8]) -> Option<usize>
    ensures { result ≡ position (λ b. b == 32) bytes.now }
{
    bytes.iter().position(|byte| *byte == b' ')
}

/// The bytes from the first that is no space.
pub(crate) fn skip_spaces(bytes: &[u8]) -> &[u8]
    ensures { result.now ≡ without_spaces bytes.now }
{
    &bytes[count_spaces(bytes)..]
}

/// How many spaces stand at the front.
fn count_spaces(bytes: &[u8]) -> usize
    ensures count { result ≡ prefix_len (λ b. b == 32) bytes.now }
    ensures within { result ≤ length bytes.now }
{
    bytes.iter().take_while(|byte| **byte == b' ').count()
}
