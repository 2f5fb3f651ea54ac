//! Who waits at the door of a network in memory.

use crate::script::Script;

/// Who waits at the door of a network in memory.
#[derive(Drop)]
pub enum Guest {
    /// A peer, which does what its script says.
    Peer(Script),
    /// One who has gone again when it is accepted.
    Leaves,
    /// One for whom the system has no room now.
    Waits,
}
