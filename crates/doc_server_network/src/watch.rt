//! Who watches what passes between a server and its peers.

use crate::handed::Handed;

/// Who is told what passes on the connections of a network, as it passes. It has no say in what the server does. That it is told the truth
/// no clause says.
pub trait Watch {
    /// A turn begins: the network has waited, and what comes now came until now.
    fn begin_turn(&mut self);

    /// A connection stands. Nothing of it was told before.
    fn joined(&mut self, id: u64);

    /// These bytes came on a connection. The requests before them have been answered, and their replies told.
    fn came(&mut self, id: u64, bytes: &[u8]);

    /// The reply to the next request of a connection was handed over in full.
    fn answered(&mut self, id: u64, reply: Handed);

    /// Nothing more is told of a connection: it has ended, or memory was lacking for what passed on it. This may come twice.
    fn left(&mut self, id: u64);

    /// All that passed in a turn was told: the network waits.
    fn end_turn(&mut self);
}
