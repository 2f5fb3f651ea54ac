//! The identity of a journal.

ghost use Rattle.std.specs.Prelude.{◌≡◌, true};
ghost use Rattle.std.specs.List.{list_all};
ghost use Rattle.std.specs.Option.{option_map};
ghost use Rattle.doc_server_status.specs.Identities.{identity_in, is_digit, is_identity};

use std::str::from_utf8;

/// How many digits an identity has.
const DIGITS: usize = 32;

/// What tells a journal from each other: 32 hexadecimal digits in lower case, as in its header.
#[derive(Clone, Copy, Debug)]
pub struct Identity {
    digits: [u8; 32],
    ghost hexadecimal: { is_identity digits ≡ true },
}

impl Identity {
    ghost use Rattle.doc_server_status.specs.Digits.{digits_of};

    /// The identity of these digits; `None` where they are no 32 hexadecimal digits in lower case.
    pub fn of(digits: &[u8]) -> Option<Identity>
        ensures { option_map digits_of result ≡ identity_in digits.now }
    {
        let digits = digits_in(digits)?;
        Some(Identity { digits })
    }

    /// Its digits, as text.
    pub fn get(&self) -> &str
        ensures { result.now ≡ digits_of self.now }
    {
        let Ok(text) = from_utf8(self.digits.as_slice()) else {
            unreachable!()
        };
        text
    }
}

/// The digits of an identity; `None` where the text isn't one.
pub fn digits_in(text: &[u8]) -> Option<[u8; 32]>
    ensures { result ≡ identity_in text.now }
{
    if !is_identity(text) {
        return None;
    }
    let mut digits = [0; DIGITS];
    digits.copy_from_slice(text);
    Some(digits)
}

/// Whether this is an identity.
fn is_identity(text: &[u8]) -> bool
    ensures { result ≡ is_identity text.now }
{
    text.len() == DIGITS && are_digits(text)
}

fn are_digits(text: &[u8]) -> bool
    ensures { result ≡ list_all is_digit text.now }
{
    text.iter().all(|byte| is_digit(*byte))
}

fn is_digit(byte: u8) -> bool
    ensures { result ≡ is_digit byte }
{
    (b'0' <= byte && byte <= b'9') || (b'a' <= byte && byte <= b'f')
}
