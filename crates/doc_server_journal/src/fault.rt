//! Why a journal can't be read or written.

use doc_page_parts::failure::Memory;
use doc_server_journal_records::read_error::ReadError;
use std::error::Error;
use std::fmt;

/// A call of a device failed.
#[derive(Clone, Copy)]
pub struct DeviceFault;

/// Why a file isn't read whole.
#[derive(Clone, Copy)]
pub enum LoadError {
    /// No memory was left.
    Memory,
    /// The file has more bytes than were asked for at most.
    Long,
    /// The device failed.
    Failed,
}

impl From<Memory> for LoadError {
    ghost use Rattle.std.specs.Prelude.{◌≡◌};
    ghost use Rattle.doc_server_journal.specs.declared.fault.LoadError.TheVariants as refusals;

    ghost from_gives = { λ _ e. e ≡ refusals.Memory };

    fn from(_e: Memory) -> LoadError {
        LoadError::Memory
    }
}

/// Why a record isn't added.
#[derive(Clone, Copy)]
pub enum AppendError {
    /// No memory was left. Nothing was written.
    Memory,
    /// The device failed. The journal has to be read again.
    Failed,
}

impl From<Memory> for AppendError {
    ghost use Rattle.std.specs.Prelude.{◌≡◌};
    ghost use Rattle.doc_server_journal.specs.declared.fault.AppendError.TheVariants as refusals;

    ghost from_gives = { λ _ e. e ≡ refusals.Memory };

    fn from(_e: Memory) -> AppendError {
        AppendError::Memory
    }
}

impl From<DeviceFault> for AppendError {
    ghost use Rattle.std.specs.Prelude.{◌≡◌};
    ghost use Rattle.doc_server_journal.specs.declared.fault.AppendError.TheVariants as refusals;

    ghost from_gives = { λ _ e. e ≡ refusals.Failed };

    fn from(_e: DeviceFault) -> AppendError {
        AppendError::Failed
    }
}

/// Why a journal isn't opened.
#[derive(Clone, Copy, Debug, PartialEq, Eq)]
pub enum OpenFault {
    /// The file doesn't begin with a journal's header. It is as it was.
    NoJournal,
    /// The file is a journal of the first form. It is as it was.
    First,
    /// The record of this number, counted from 1, is damaged. The file is as it was.
    Damaged(usize),
    /// No memory was left. The file is as it was.
    Memory,
    /// The file has more bytes than it may have. It is as it was.
    Long,
    /// The device failed. Each record that was whole is still there.
    Failed,
}

impl fmt::Display for OpenFault {
    fn fmt<W: fmt::Write>(&self, f: &mut fmt::Formatter<W>) -> fmt::Result {
        match self {
            OpenFault::NoJournal => fmt::Display::fmt(&ReadError::NoJournal, f),
            OpenFault::First => fmt::Display::fmt(&ReadError::First, f),
            OpenFault::Damaged(n) => fmt::Display::fmt(&ReadError::Damaged(*n), f),
            OpenFault::Memory => fmt::Display::fmt(&Memory, f),
            OpenFault::Long => f.write_str("journal too long"),
            OpenFault::Failed => f.write_str("cannot use journal"),
        }
    }
}

impl Error for OpenFault {}

impl From<Memory> for OpenFault {
    ghost use Rattle.std.specs.Prelude.{◌≡◌};
    ghost use Rattle.doc_server_journal.specs.declared.fault.OpenFault.TheVariants as refusals;

    ghost from_gives = { λ _ fault. fault ≡ refusals.Memory };

    fn from(_e: Memory) -> OpenFault {
        OpenFault::Memory
    }
}

impl From<LoadError> for OpenFault {
    ghost use Rattle.std.specs.Prelude.{◌≡◌};
    ghost use Rattle.doc_server_journal.specs.Openings.{of_load};

    ghost from_gives = { λ e fault. fault ≡ of_load e };

    fn from(e: LoadError) -> OpenFault {
        match e {
            LoadError::Memory => OpenFault::Memory,
            LoadError::Long => OpenFault::Long,
            LoadError::Failed => OpenFault::Failed,
        }
    }
}

impl From<ReadError> for OpenFault {
    ghost use Rattle.std.specs.Prelude.{◌≡◌};
    ghost use Rattle.doc_server_journal.specs.Openings.{of_reading};

    ghost from_gives = { λ e fault. fault ≡ of_reading e };

    fn from(e: ReadError) -> OpenFault {
        match e {
            ReadError::NoJournal => OpenFault::NoJournal,
            ReadError::First => OpenFault::First,
            ReadError::Damaged(n) => OpenFault::Damaged(n),
            ReadError::Memory => OpenFault::Memory,
        }
    }
}

impl From<DeviceFault> for OpenFault {
    ghost use Rattle.std.specs.Prelude.{◌≡◌};
    ghost use Rattle.doc_server_journal.specs.declared.fault.OpenFault.TheVariants as refusals;

    ghost from_gives = { λ _ fault. fault ≡ refusals.Failed };

    fn from(_e: DeviceFault) -> OpenFault {
        OpenFault::Failed
    }
}
