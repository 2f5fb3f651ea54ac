//! What the Content-Length fields of a head say.

ghost use Rattle.std.specs.Prelude.{◌≡◌, ◌++◌, ◌∷◌, [], List, ℕ, codes};
ghost use Rattle.std.specs.List.{list_all};
ghost use Rattle.std.specs.Char.{is_ascii_digit};
ghost use Rattle.doc_http_bodies.specs.Framings.{length_of, length_in, is_number};
ghost use Rattle.doc_http_bodies.specs.Fields.{values_named, Fields};

use crate::digits::length_of_digits;
use crate::names::is_named;

/// What the Content-Length fields say.
#[derive(Clone, Copy)]
pub enum Length {
    Absent,
    Known(usize),
    TooLarge,
    Malformed,
}

impl Length {
    /// What the fields say, with one more field.
    pub fn see(self, name: &[u8], value: &[u8]) -> Length
        ensures { (fields : Fields)
            → self ≡ length_of (values_named (codes "content-length") fields)
            → result ≡ length_of
            (values_named (codes "content-length") (fields ++ (name.now, value.now) ∷ [])) }
    {
        if is_named(name, b"content-length") {
            self.with(value)
        } else {
            self
        }
    }

    /// The same, with one more of these fields.
    fn with(self, value: &[u8]) -> Length
        ensures { (values : List (List ℕ)) → self ≡ length_of values
            → result ≡ length_of (values ++ value.now ∷ []) }
    {
        match self {
            Length::Absent => length_in(value),
            _ => Length::Malformed,
        }
    }
}

/// What one Content-Length field says.
fn length_in(value: &[u8]) -> Length
    ensures { result ≡ length_in value.now }
{
    if !is_number(value) {
        return Length::Malformed;
    }
    match length_of_digits(value) {
        Some(length) => Length::Known(length),
        None => Length::TooLarge,
    }
}

/// Whether the value is one or more digits.
fn is_number(value: &[u8]) -> bool
    ensures { result ≡ is_number value.now }
{
    !value.is_empty() && are_digits(value)
}

/// Whether each byte is a digit.
fn are_digits(value: &[u8]) -> bool
    ensures { result ≡ list_all is_ascii_digit value.now }
{
    value.iter().all(|byte| byte.is_ascii_digit())
}
