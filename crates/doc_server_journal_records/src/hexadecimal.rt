//! Lower case hexadecimal digits.

ghost use Rattle.std.specs.Prelude.{◌≡◌, ◌<◌, ◌^◌, ◌*◌, ℕ, length, drop, IfSome, IsNone};
ghost use Rattle.std.specs.Int.{to_be_bytes, w64};
ghost use Rattle.std.specs.List.{list_all};
ghost use Rattle.hex.specs.Hex.{encode_lower};
ghost use Rattle.doc_server_journal_records.specs.Records.{is_digit, length_digits, time_of};

use hex::{decode_to_slice, encode_to_slice};

/// Whether all are lower case hexadecimal digits.
pub fn are_digits(bytes: &[u8]) -> bool
    ensures { result ≡ list_all is_digit bytes.now }
{
    bytes.iter().all(|byte| is_digit(*byte))
}

fn is_digit(byte: u8) -> bool
    ensures { result ≡ is_digit byte }
{
    (48 <= byte && byte <= 57) || (97 <= byte && byte <= 102)
}

/// Writes the digits of bytes, two for each.
pub fn write_digits(bytes: &[u8], digits: &mut [u8])
    requires { length digits.old ≡ 2 * length bytes.now }
    ensures { digits.new ≡ encode_lower bytes.now }
{
    let Ok(()) = encode_to_slice(bytes, digits) else {
        unreachable!()
    };
}

/// The digits of a digest.
pub fn digest_digits(digest: &[u8; 32]) -> [u8; 64]
    ensures { result ≡ encode_lower digest.now }
{
    let mut digits = [0; 64];
    write_digits(digest.as_slice(), &mut digits);
    digits
}

/// The eight digits of a length.
#[tactic(auto, unfolding(crate::specs::Records::length_digits))]
pub fn length_digits(len: u32) -> [u8; 8]
    ensures { result ≡ length_digits len }
{
    let mut digits = [0; 8];
    write_digits(len.to_be_bytes().as_slice(), &mut digits);
    digits
}

/// The ten digits of seconds.
#[tactic(auto, unfolding(crate::specs::Records::time_of))]
pub fn time_digits(seconds: u64) -> [u8; 10]
    ensures { result ≡ time_of seconds }
{
    let mut digits = [0; 10];
    write_digits(&seconds.to_be_bytes()[3..], &mut digits);
    digits
}

/// The length that eight digits write.
pub fn written_length(digits: &[u8]) -> Option<u32>
    ensures found { IfSome result (λ len. digits.now ≡ length_digits len) }
    ensures bound { IfSome result (λ len. len < 2 ^ 32) }
    ensures none { IsNone result → (count : ℕ) → count < 2 ^ 32
        → digits.now ≡ length_digits count → ⊥ }
{
    let mut bytes = [0u8; 4];
    let Ok(()) = decode_to_slice(digits, &mut bytes) else {
        return None;
    };
    let len = u32::from_be_bytes(bytes);
    if digits == length_digits(len).as_slice() {
        return Some(len);
    }
    None
}
