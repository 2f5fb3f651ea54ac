//! What a peer in memory does.

ghost use Rattle.std.specs.Prelude.{◌≡◌};

use doc_page_parts::bytes::Bytes;

/// What a peer in memory sends, and how the calls on its connection go.
#[derive(Drop)]
pub struct Script {
    /// All that it sends.
    pub input: Bytes,
    /// Whether it ends what it sends behind the last byte. If not, it is silent then.
    pub ends: bool,
    /// How many bytes a read gives at most.
    pub piece: usize,
    /// How many bytes a write takes at most.
    pub budget: usize,
    /// Whether each call that may move bytes comes behind one that moves none yet.
    pub pauses: bool,
    /// So many reads and writes go well, and the next one fails.
    pub calls: u64,
}

impl Script {
    /// A peer that sends this at once, ends, and takes whatever it is sent.
    pub fn plain(input: Bytes) -> Script
        ensures { result.input ≡ input }
    {
        Script {
            input,
            ends: true,
            piece: usize::MAX,
            budget: usize::MAX,
            pauses: false,
            calls: u64::MAX,
        }
    }
}
