//! Why a compaction isn't written.

use doc_page_parts::failure::Memory;
use doc_server_journal::fault::{AppendError, DeviceFault, OpenFault};
use std::alloc::AllocError;
use thiserror::Error;

/// Why the edits that lead from one site to another aren't written to a journal.
#[derive(Clone, Copy, Debug, Error)]
pub enum CompactFault {
    /// The device holds something already.
    #[error("new journal not empty")]
    NotEmpty,
    /// An edit is too long for a record: its page is larger than a page may be.
    #[error("edit too long")]
    TooLong,
    /// The device has no room for the journal.
    #[error("no room for the journal")]
    Full,
    /// The device failed.
    #[error("cannot use journal")]
    Failed,
    /// No memory was left.
    #[error("{}", Memory)]
    Memory,
}

impl From<Memory> for CompactFault {
    fn from(_e: Memory) -> CompactFault {
        CompactFault::Memory
    }
}

impl From<AllocError> for CompactFault {
    fn from(_e: AllocError) -> CompactFault {
        CompactFault::Memory
    }
}

impl From<AppendError> for CompactFault {
    fn from(e: AppendError) -> CompactFault {
        match e {
            AppendError::Memory => CompactFault::Memory,
            AppendError::Failed => CompactFault::Failed,
        }
    }
}

impl From<DeviceFault> for CompactFault {
    fn from(_e: DeviceFault) -> CompactFault {
        CompactFault::Failed
    }
}

impl From<OpenFault> for CompactFault {
    fn from(e: OpenFault) -> CompactFault {
        match e {
            OpenFault::NoJournal | OpenFault::First | OpenFault::Damaged(_) | OpenFault::Long =>
                CompactFault::NotEmpty,
            OpenFault::Memory => CompactFault::Memory,
            OpenFault::Failed => CompactFault::Failed,
        }
    }
}
