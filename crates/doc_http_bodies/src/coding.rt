//! What the Transfer-Encoding fields of a head say.

ghost use Rattle.std.specs.Prelude.{◌≡◌, ◌++◌, ◌∷◌, [], List, ℕ, codes};
ghost use Rattle.doc_http_bodies.specs.Framings.{coding_of, coding_in};
ghost use Rattle.doc_http_bodies.specs.Fields.{values_named, Fields};

use crate::names::is_named;

/// What the Transfer-Encoding fields say.
#[derive(Clone, Copy)]
pub enum Coding {
    Absent,
    /// One field, whose value is `chunked`.
    Chunked,
    Other,
}

impl Coding {
    /// What the fields say, with one more field.
    pub fn see(self, name: &[u8], value: &[u8]) -> Coding
        ensures { (fields : Fields)
            → self ≡ coding_of (values_named (codes "transfer-encoding") fields)
            → result ≡ coding_of
            (values_named (codes "transfer-encoding") (fields ++ (name.now, value.now) ∷ [])) }
    {
        if is_named(name, b"transfer-encoding") {
            self.with(value)
        } else {
            self
        }
    }

    /// The same, with one more of these fields.
    fn with(self, value: &[u8]) -> Coding
        ensures { (values : List (List ℕ)) → self ≡ coding_of values
            → result ≡ coding_of (values ++ value.now ∷ []) }
    {
        match self {
            Coding::Absent => coding_in(value),
            _ => Coding::Other,
        }
    }
}

/// What one Transfer-Encoding field says.
fn coding_in(value: &[u8]) -> Coding
    ensures { result ≡ coding_in value.now }
{
    if value.eq_ignore_ascii_case(b"chunked") {
        Coding::Chunked
    } else {
        Coding::Other
    }
}
