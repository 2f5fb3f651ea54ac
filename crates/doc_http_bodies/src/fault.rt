//! Why a body can't be read.

ghost use Rattle.std.specs.Prelude.{◌≡◌};
ghost use Rattle.doc_http_bodies.specs.Faults.{code_of};

/// Why the body of a request can't be read.
#[derive(Clone, Copy, Debug, PartialEq, Eq)]
pub enum Fault {
    /// It is not framed, or not encoded, as RFC 9112 has it (sections 6.3 and 7.1).
    Malformed,
    /// It is longer than a body may be.
    TooLarge,
    /// Its transfer coding is not known (RFC 9112, section 6.1).
    Unsupported,
}

impl Fault {
    /// The code of the reply (RFC 9110, section 15).
    pub fn code(self) -> u16
        ensures { result ≡ code_of self }
    {
        match self {
            Fault::Malformed => 400,
            Fault::TooLarge => 413,
            Fault::Unsupported => 501,
        }
    }
}
