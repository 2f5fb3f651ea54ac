//! Why a turn ends a server.

use doc_page_parts::failure::Memory;
use doc_server_journal::fault::{AppendError, DeviceFault};
use thiserror::Error;

/// Why a turn ends a server.
#[derive(Clone, Copy, Debug, Error)]
pub enum TurnFault {
    /// No memory was left for the edits of the turn.
    #[error("memory")]
    Memory,
    /// The edits of the turn can't be written down.
    #[error("cannot write")]
    CannotWrite,
}

impl From<Memory> for TurnFault {
    ghost use Rattle.std.specs.Prelude.{◌≡◌};
    ghost use Rattle.doc_server_settling.specs.declared.fault.TurnFault.TheVariants as faults;

    ghost from_gives = { λ _ e. e ≡ faults.Memory };

    fn from(_e: Memory) -> TurnFault {
        TurnFault::Memory
    }
}

impl From<AppendError> for TurnFault {
    ghost use Rattle.std.specs.Prelude.{◌≡◌};
    ghost use Rattle.doc_server_settling.specs.Faults.{of_append};

    ghost from_gives = { λ e fault. fault ≡ of_append e };

    fn from(e: AppendError) -> TurnFault {
        match e {
            AppendError::Memory => TurnFault::Memory,
            AppendError::Failed => TurnFault::CannotWrite,
        }
    }
}

impl From<DeviceFault> for TurnFault {
    ghost use Rattle.std.specs.Prelude.{◌≡◌};
    ghost use Rattle.doc_server_settling.specs.declared.fault.TurnFault.TheVariants as faults;

    ghost from_gives = { λ _ e. e ≡ faults.CannotWrite };

    fn from(_e: DeviceFault) -> TurnFault {
        TurnFault::CannotWrite
    }
}
