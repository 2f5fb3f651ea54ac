//! Why a journal's file can't be used.

use doc_page_parts::failure::Memory;
use std::alloc::AllocError;
use std::fs::TryLockError;
use std::io;
use thiserror::Error;

/// Why a file isn't opened, or none takes its place.
#[derive(Clone, Copy, Debug, Error)]
pub enum FileFault {
    /// Another process has it open as a device.
    #[error("journal in use")]
    InUse,
    /// There is none.
    #[error("cannot open journal")]
    Missing,
    /// It can't be opened or made, is no regular file, or can't be locked.
    #[error("cannot open journal")]
    NotOpened,
    /// The file beside it can't get its name. It has its name, or the other has it and a crash may take it back.
    #[error("cannot replace journal")]
    NotReplaced,
    /// No memory was left.
    #[error("{}", Memory)]
    Memory,
}

impl From<io::Error> for FileFault {
    fn from(_e: io::Error) -> FileFault {
        FileFault::NotOpened
    }
}

impl From<AllocError> for FileFault {
    fn from(_e: AllocError) -> FileFault {
        FileFault::Memory
    }
}

impl From<TryLockError> for FileFault {
    fn from(e: TryLockError) -> FileFault {
        match e {
            TryLockError::WouldBlock => FileFault::InUse,
            TryLockError::Error(_) => FileFault::NotOpened,
        }
    }
}
