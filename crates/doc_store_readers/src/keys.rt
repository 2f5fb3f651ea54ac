//! What reader entries name their readers by.

ghost use Rattle.std.specs.Prelude.{◌≡◌, IfOk, option_map, option_and_then};
ghost use Rattle.std.specs.List.{list_all};
ghost use Rattle.sha2.specs.Sha256.{sha256};
ghost use Rattle.toml.specs.Data.{as_str};
ghost use Rattle.toml.specs.View.{view};
ghost use Rattle.doc_store_readers.specs.Keys.{digest_of_text, good_token, is_digit, key_in};
ghost use Rattle.doc_store_readers.specs.declared.keys.Key.TheVariants as keys;

use doc_page_parts::failure::Memory;
use doc_page_parts::heap::Heap;
use doc_page_parts::text::Text;
use doc_page_parts::token::is_token;
use hex::FromHex;
use sha2::{Digest, Sha256};
use toml::Value;

/// What a reader entry names its reader by: a bearer token, or the SHA-256 of one (FIPS 180-4).
#[derive(Drop)]
pub enum Key {
    Token(Text),
    Digest([u8; 32]),
}

/// The digest of a token.
pub fn digest_of(token: &str) -> [u8; 32]
    ensures { result ≡ sha256 token.now }
{
    Sha256::digest(token.as_bytes())
}

/// The key of a reader entry.
pub fn key_in(heap: Heap, table: &Value) -> Result<Option<Key>, Memory>
    ensures { IfOk result (λ key. key ≡ key_in (view table.now)) }
{
    match (table.get("token"), table.get("token_sha256")) {
        (Some(token), None) => token_in(heap, token),
        (None, Some(digest)) => Ok(digest_in(digest)),
        (None, None) | (Some(_), Some(_)) => Ok(None),
    }
}

/// The token that a value holds.
fn token_in(heap: Heap, value: &Value) -> Result<Option<Key>, Memory>
    ensures { IfOk result (λ key. key ≡ option_map keys.Token (good_token (as_str (view value.now)))) }
{
    let Some(token) = value.as_str() else {
        return Ok(None);
    };
    if !is_token(token.as_bytes()) {
        return Ok(None);
    }
    Ok(Some(Key::Token(Text::copy_of(heap, token)?)))
}

/// The digest that a value holds.
fn digest_in(value: &Value) -> Option<Key>
    ensures { result ≡ option_map keys.Digest (option_and_then digest_of_text (as_str (view value.now))) }
{
    let digest = digest_of_text(value.as_str()?)?;
    Some(Key::Digest(digest))
}

/// The 32 bytes of 64 lower case hexadecimal digits.
fn digest_of_text(text: &str) -> Option<[u8; 32]>
    ensures { result ≡ digest_of_text text.now }
{
    if !are_digits(text.as_bytes()) {
        return None;
    }
    <[u8; 32] as FromHex>::from_hex(text).ok()
}

/// Whether all are lower case hexadecimal digits.
fn are_digits(bytes: &[u8]) -> bool
    ensures { result ≡ list_all is_digit bytes.now }
{
    bytes.iter().all(|byte| is_digit(*byte))
}

fn is_digit(byte: u8) -> bool
    ensures { result ≡ is_digit byte }
{
    (48 <= byte && byte <= 57) || (97 <= byte && byte <= 102)
}
