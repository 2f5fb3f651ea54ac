//! What a link does in its next pass.

/// What a link does in its next pass.
#[derive(Clone, Copy, PartialEq, Eq)]
pub enum Phase {
    /// It reads, where nothing is pending.
    Reads,
    /// A step found no memory: it reads nothing.
    Waits,
    /// A read gave no byte: it reads nothing, and closes once a step answers that there is no more.
    Ends,
    /// It does nothing.
    Closed,
}
