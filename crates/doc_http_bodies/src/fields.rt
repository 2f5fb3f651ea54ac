//! The fields of a head that frame its body.

ghost use Rattle.std.specs.Prelude.{◌≡◌, ◌++◌, ◌∷◌, [], List, ℕ};
ghost use Rattle.doc_http_bodies.specs.Framings.{framing_of, framing_by, sized_by, Saw};
ghost use Rattle.doc_http_bodies.specs.Fields.{Fields};

use crate::coding::Coding;
use crate::fault::Fault;
use crate::framing::Framing;
use crate::length::Length;

/// What the fields of a head that were seen so far say of its body.
#[derive(Clone, Copy)]
pub struct FramingFields {
    coding: Coding,
    length: Length,
}

impl FramingFields {
    /// No field was seen.
    #[tactic(auto, unfolding(crate::specs::Framings::Saw))]
    pub fn new() -> Self
        ensures { Saw result [] }
    {
        FramingFields {
            coding: Coding::Absent,
            length: Length::Absent,
        }
    }

    /// Takes in the next field: its name, in any case, and its value without the blanks around it.
    #[tactic(auto, unfolding(crate::specs::Framings::Saw))]
    pub fn see(&mut self, name: &[u8], value: &[u8])
        ensures { (fields : Fields) → Saw self.old fields
            → Saw self.new (fields ++ (name.now, value.now) ∷ []) }
    {
        self.coding = self.coding.see(name, value);
        self.length = self.length.see(name, value);
    }

    /// How the body is framed, in a request of HTTP/1.0 (`is_old`) or of HTTP/1.1.
    ///
    /// Faults, in this order: unsupported where there is a Transfer-Encoding and it is not one field of the value
    /// `chunked`; malformed where it stands in HTTP/1.0 or beside a Content-Length; malformed where Content-Length
    /// is not one field of one or more digits; too large where it is more than 1,048,576.
    #[tactic(auto, unfolding(crate::specs::Framings::Saw, crate::specs::Framings::framing_of))]
    pub fn framing(&self, is_old: bool) -> Result<Framing, Fault>
        ensures { (fields : Fields) → Saw self.now fields → result ≡ framing_of is_old fields }
    {
        framing_by(is_old, self.coding, self.length)
    }
}

/// How the body is framed, by what the fields say and by whether the request is of HTTP/1.0.
fn framing_by(is_old: bool, coding: Coding, length: Length) -> Result<Framing, Fault>
    ensures { result ≡ framing_by is_old coding length }
{
    match coding {
        Coding::Other => Err(Fault::Unsupported),
        Coding::Chunked if is_old => Err(Fault::Malformed),
        Coding::Chunked => match length {
            Length::Absent => Ok(Framing::Chunked),
            _ => Err(Fault::Malformed),
        },
        Coding::Absent => sized_by(length),
    }
}

/// The framing without a transfer coding.
fn sized_by(length: Length) -> Result<Framing, Fault>
    ensures { result ≡ sized_by length }
{
    match length {
        Length::Absent => Ok(Framing::Sized(0)),
        Length::Known(size) => Ok(Framing::Sized(size)),
        Length::TooLarge => Err(Fault::TooLarge),
        Length::Malformed => Err(Fault::Malformed),
    }
}
