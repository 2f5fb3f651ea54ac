//! Why the peers of a listener were not served.

ghost use Rattle.std.specs.Prelude.{◌≡◌};

use doc_hub::refusal::ConnectError;
use doc_page_parts::failure::Memory;
use thiserror::Error;

/// Why the peers of a listener were not served.
#[derive(Clone, Copy, Debug, Error)]
pub enum ServeFault {
    /// The listener gave no connection.
    #[error("no connection was accepted")]
    Accept,
    /// All numbers of connections were given.
    #[error("{}", ConnectError::NoIds)]
    NoIds,
    #[error("{}", Memory)]
    Memory,
}

impl From<Memory> for ServeFault {
    ghost use Rattle.std.specs.Prelude.{◌≡◌};
    ghost use Rattle.doc_server_rounds.specs.declared.fault.ServeFault.TheVariants as faults;

    ghost from_gives = { λ _ fault. fault ≡ faults.Memory };

    fn from(_e: Memory) -> ServeFault {
        ServeFault::Memory
    }
}

impl From<ConnectError> for ServeFault {
    ghost use Rattle.std.specs.Prelude.{◌≡◌};
    ghost use Rattle.doc_server_rounds.specs.Faults.{fault_of};

    ghost from_gives = { λ error fault. fault ≡ fault_of error };

    fn from(error: ConnectError) -> ServeFault {
        match error {
            ConnectError::NoIds => ServeFault::NoIds,
            ConnectError::Memory => ServeFault::Memory,
        }
    }
}
