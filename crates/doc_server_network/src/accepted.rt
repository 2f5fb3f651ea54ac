//! What accepting came to.

/// What accepting came to.
#[derive(Clone, Copy, Debug, PartialEq, Eq)]
pub enum Accepted {
    /// A peer stands under the number.
    Peer,
    /// Nobody waits.
    Nobody,
    /// The peer has gone again, or was let go: the next one may be accepted at once.
    Failed,
    /// The system refuses peers for now: it is asked again at the next sweep.
    Rests,
}
