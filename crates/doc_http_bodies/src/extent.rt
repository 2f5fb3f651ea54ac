//! How far an encoded body reaches.

use crate::fault::Fault;

/// How far an encoded body reaches.
#[derive(Clone, Copy)]
pub enum Extent {
    /// It doesn't end yet.
    More,
    Fault(Fault),
    /// The first `used` bytes, of which `len` are its chunks' data.
    Whole { used: usize, len: usize },
}
