//! What a network tells of.

/// What a network tells of.
#[derive(Clone, Copy, Debug, PartialEq, Eq)]
pub enum Told {
    /// A read or a write may go on on the connection of this number. Its peer is gone where it was reset, or neither side sends any
    /// more.
    Connection { id: u64, is_gone: bool },
    /// A peer may be waiting to be accepted.
    Door,
    /// Something has come on standard input, which can be read once without waiting.
    Input,
    /// Standard input has ended.
    InputEnds,
}
