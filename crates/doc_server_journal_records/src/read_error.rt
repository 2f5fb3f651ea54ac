//! Why the bytes of a journal aren't read.

use doc_page_parts::failure::Memory;
use thiserror::Error;

/// Why the bytes of a journal aren't read.
#[derive(Clone, Copy, Debug, Error)]
pub enum ReadError {
    /// They don't begin with a journal's header.
    #[error("no journal")]
    NoJournal,
    /// They are a journal of the first form.
    #[error("journal of version 1")]
    First,
    /// The record of this number, counted from 1, is damaged.
    #[error("journal record {0}")]
    Damaged(usize),
    #[error("{}", Memory)]
    Memory,
}

impl From<Memory> for ReadError {
    ghost use Rattle.std.specs.Prelude.{◌≡◌};
    ghost use Rattle.doc_server_journal_records.specs.declared.read_error.ReadError.TheVariants as refusals;

    ghost from_gives = { λ _ e. e ≡ refusals.Memory };

    fn from(_e: Memory) -> ReadError {
        ReadError::Memory
    }
}
