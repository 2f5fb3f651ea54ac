//! Digests of tokens, as they are written.

ghost use Rattle.std.specs.Prelude.{◌≡◌};
ghost use Rattle.std.specs.List.{list_all};
ghost use Rattle.doc_store_readers.specs.Keys.{digest_of_text, is_digit};

use hex::FromHex;

/// The 32 bytes of 64 lower case hexadecimal digits.
pub fn digest_of_text(text: &str) -> Option<[u8; 32]>
    ensures { result ≡ digest_of_text text.now }
{
    if !are_digits(text.as_bytes()) {
        return None;
    }
    <[u8; 32] as FromHex>::from_hex(text).ok()
}

/// Whether all are lower case hexadecimal digits.
fn are_digits(bytes: &[u8]) -> bool
    ensures { result ≡ list_all is_digit bytes.now }
{
    bytes.iter().all(|byte| is_digit(*byte))
}

fn is_digit(byte: u8) -> bool
    ensures { result ≡ is_digit byte }
{
    (48 <= byte && byte <= 57) || (97 <= byte && byte <= 102)
}
