//! Why a journal isn't compacted.

use doc_page_parts::failure::Memory;
use doc_server_journal::fault::OpenFault;
use doc_server_journal::file_fault::FileFault;
use doc_server_restore::compact_fault::CompactFault;
use doc_server_restore::fault::RestoreFault;
use thiserror::Error;

/// Why a journal isn't compacted.
#[derive(Clone, Copy, Debug, Error)]
pub enum CompactingFault {
    /// The journal's file isn't opened, or none takes its name.
    #[error("{0}")]
    File(FileFault),
    /// The journal isn't read.
    #[error("{0}")]
    Journal(OpenFault),
    /// The journal's edits can't be made.
    #[error("{0}")]
    Restore(RestoreFault),
    /// The new journal isn't written.
    #[error("{0}")]
    Compact(CompactFault),
    /// The disk has no room for the journal's reserve.
    #[error("no room for the journal")]
    NoRoom,
    /// The configuration's site has too few stamps left for the edits of the new journal.
    #[error("no stamps left for the edits")]
    NoStamps,
    /// No memory was left.
    #[error("{}", Memory)]
    Memory,
}

impl From<FileFault> for CompactingFault {
    ghost use Rattle.std.specs.Prelude.{◌≡◌};
    ghost use Rattle.doc_server_compacting.specs.declared.fault.CompactingFault.TheVariants as faults;

    ghost from_gives = { λ fault stop. stop ≡ faults.File fault };

    fn from(fault: FileFault) -> CompactingFault {
        CompactingFault::File(fault)
    }
}

impl From<OpenFault> for CompactingFault {
    ghost use Rattle.std.specs.Prelude.{◌≡◌};
    ghost use Rattle.doc_server_compacting.specs.declared.fault.CompactingFault.TheVariants as faults;

    ghost from_gives = { λ fault stop. stop ≡ faults.Journal fault };

    fn from(fault: OpenFault) -> CompactingFault {
        CompactingFault::Journal(fault)
    }
}

impl From<RestoreFault> for CompactingFault {
    ghost use Rattle.std.specs.Prelude.{◌≡◌};
    ghost use Rattle.doc_server_compacting.specs.declared.fault.CompactingFault.TheVariants as faults;

    ghost from_gives = { λ fault stop. stop ≡ faults.Restore fault };

    fn from(fault: RestoreFault) -> CompactingFault {
        CompactingFault::Restore(fault)
    }
}

impl From<CompactFault> for CompactingFault {
    ghost use Rattle.std.specs.Prelude.{◌≡◌};
    ghost use Rattle.doc_server_compacting.specs.declared.fault.CompactingFault.TheVariants as faults;

    ghost from_gives = { λ fault stop. stop ≡ faults.Compact fault };

    fn from(fault: CompactFault) -> CompactingFault {
        CompactingFault::Compact(fault)
    }
}

impl From<Memory> for CompactingFault {
    ghost use Rattle.std.specs.Prelude.{◌≡◌};
    ghost use Rattle.doc_server_compacting.specs.declared.fault.CompactingFault.TheVariants as faults;

    ghost from_gives = { λ _ stop. stop ≡ faults.Memory };

    fn from(_e: Memory) -> CompactingFault {
        CompactingFault::Memory
    }
}
