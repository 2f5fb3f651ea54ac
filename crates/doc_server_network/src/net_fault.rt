//! What a network answers where a call of it failed.

/// A call of a network failed.
#[derive(Clone, Copy, Debug, PartialEq, Eq)]
pub struct NetFault;
