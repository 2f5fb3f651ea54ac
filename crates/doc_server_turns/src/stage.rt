//! What a client does in its next turn.

/// What a client does in its next turn.
#[derive(Clone, Copy, PartialEq, Eq)]
pub enum Stage {
    /// It reads.
    Reads,
    /// It steps, and reads nothing: what was read may hold a further request.
    Steps,
    /// Its connection is dropped. It hands over what is pending, and lingers behind that.
    Ends,
    /// It does nothing any more, and is let go.
    Over,
}
