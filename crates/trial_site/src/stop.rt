//! Why a line has no answer.

use doc_hub::refusal::HubError;
use doc_page_parts::failure::Memory;
use doc_page_parts::path::PathError;
use doc_server_config::browsing::BrowseError;
use doc_store::groups::GroupsError;
use doc_store::readers::ReadersError;
use std::alloc::{AllocError, AllocFailed};
use thiserror::Error;

/// Why a line has no answer.
#[derive(Clone, Copy, Debug, Error)]
pub enum Stop {
    /// No memory was left for the line.
    #[error("no memory for the line")]
    Memory,
    /// The line is no call.
    #[error("no call")]
    NoCall,
    /// Memory ran out in what the line calls, and not for what is given and answered.
    #[error("refused: {Memory}")]
    Refused,
    #[error("refused: {0}")]
    Path(PathError),
    #[error("refused: {0}")]
    Groups(GroupsError),
    #[error("refused: {0}")]
    Readers(ReadersError),
    #[error("refused: {0}")]
    Browse(BrowseError),
    #[error("refused: {0}")]
    Hub(HubError),
}

impl From<Memory> for Stop {
    fn from(_e: Memory) -> Stop {
        Stop::Memory
    }
}

impl From<AllocError> for Stop {
    fn from(_e: AllocError) -> Stop {
        Stop::Memory
    }
}

impl<T: Drop> From<AllocFailed<T>> for Stop {
    fn from(_e: AllocFailed<T>) -> Stop {
        Stop::Memory
    }
}

impl From<PathError> for Stop {
    fn from(e: PathError) -> Stop {
        Stop::Path(e)
    }
}

impl From<GroupsError> for Stop {
    fn from(e: GroupsError) -> Stop {
        Stop::Groups(e)
    }
}

impl From<ReadersError> for Stop {
    fn from(e: ReadersError) -> Stop {
        Stop::Readers(e)
    }
}

impl From<BrowseError> for Stop {
    fn from(e: BrowseError) -> Stop {
        Stop::Browse(e)
    }
}

impl From<HubError> for Stop {
    fn from(e: HubError) -> Stop {
        Stop::Hub(e)
    }
}
