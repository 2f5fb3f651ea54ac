//! Why a journal's edits aren't restored.

use doc_page_parts::failure::Memory;
use thiserror::Error;

/// Why the edits of a journal's records aren't restored. Records are counted from 1.
#[derive(Clone, Copy, Debug, Error)]
pub enum RestoreFault {
    /// This record is no text of edits.
    #[error("bad journal record {0}")]
    BadRecord(usize),
    /// Of this record the edit of this line is refused, the first that is. Lines are counted from 1.
    #[error("journal record {0} refused, line {1}")]
    Refused(usize, usize),
    /// No memory was left.
    #[error("{}", Memory)]
    Memory,
}

impl From<Memory> for RestoreFault {
    ghost use Rattle.std.specs.Prelude.{◌≡◌};
    ghost use Rattle.doc_server_restore.specs.declared.fault.RestoreFault.TheVariants as faults;

    ghost from_gives = { λ _ e. e ≡ faults.Memory };

    fn from(_e: Memory) -> RestoreFault {
        RestoreFault::Memory
    }
}
