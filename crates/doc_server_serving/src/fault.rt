//! Why a server ends.

use doc_page_parts::failure::Memory;
use doc_server_network::follow_fault::FollowFault;
use doc_server_network::net_fault::NetFault;
use doc_server_settling::fault::TurnFault;
use std::alloc::AllocError;
use thiserror::Error;

/// Why a server ends, or doesn't begin.
#[derive(Clone, Copy, Debug, Error)]
pub enum ServeFault {
    /// The network can't be waited for, or the system can't be asked for the time.
    #[error("the address can't be listened at")]
    Socket,
    /// The edits of a turn can't be written down, or the journal can't be found by its name.
    #[error("cannot write")]
    CannotWrite,
    #[error("{}", Memory)]
    Memory,
    /// Another server can't be followed any more.
    #[error("{0}")]
    Follow(FollowFault),
}

impl From<NetFault> for ServeFault {
    ghost use Rattle.std.specs.Prelude.{◌≡◌};
    ghost use Rattle.doc_server_serving.specs.declared.fault.ServeFault.TheVariants as faults;

    ghost from_gives = { λ _ e. e ≡ faults.Socket };

    fn from(_e: NetFault) -> ServeFault {
        ServeFault::Socket
    }
}

impl From<AllocError> for ServeFault {
    ghost use Rattle.std.specs.Prelude.{◌≡◌};
    ghost use Rattle.doc_server_serving.specs.declared.fault.ServeFault.TheVariants as faults;

    ghost from_gives = { λ _ e. e ≡ faults.Memory };

    fn from(_e: AllocError) -> ServeFault {
        ServeFault::Memory
    }
}

impl From<TurnFault> for ServeFault {
    ghost use Rattle.std.specs.Prelude.{◌≡◌};
    ghost use Rattle.doc_server_serving.specs.Faults.{of_turn};

    ghost from_gives = { λ e fault. fault ≡ of_turn e };

    fn from(e: TurnFault) -> ServeFault {
        match e {
            TurnFault::Memory => ServeFault::Memory,
            TurnFault::CannotWrite => ServeFault::CannotWrite,
        }
    }
}

impl From<FollowFault> for ServeFault {
    ghost use Rattle.std.specs.Prelude.{◌≡◌};
    ghost use Rattle.doc_server_serving.specs.declared.fault.ServeFault.TheVariants as faults;

    ghost from_gives = { λ e fault. fault ≡ faults.Follow e };

    fn from(e: FollowFault) -> ServeFault {
        ServeFault::Follow(e)
    }
}
