//! Why no token is made, and no digest told.

use doc_page_parts::failure::Memory;
use doc_store_readers::groups::GroupsError;
use std::alloc::AllocError;
use thiserror::Error;

/// Why no token is made, and no digest told. Of several it is the first, but that memory may run out anywhere. A line behind the first
/// has the program's name before it, as whoever prints this puts it before the first.
#[derive(Clone, Copy, Debug, PartialEq, Eq, Error)]
pub enum TokenFault {
    /// The name is no name of a reader.
    #[error("NAME is 1 to 32 of a-z, 0-9, -, _, . and @\ndocs_server: usage")]
    BadName,
    /// What stands before, between or behind commas is no name of a group.
    #[error("a group's name is 1 to 32 of a-z, 0-9 and -\ndocs_server: usage")]
    BadGroup,
    /// There are more than 32 different groups.
    #[error("more than 32 groups\ndocs_server: usage")]
    TooManyGroups,
    /// The system gives no random bytes.
    #[error("cannot make a token")]
    NoRandomness,
    /// Standard input can't be read.
    #[error("cannot read -")]
    CannotRead,
    /// The line on standard input is no bearer token (RFC 6750, section 2.1).
    #[error("not a bearer token")]
    NoToken,
    #[error("cannot write")]
    CannotWrite,
    #[error("memory")]
    Memory,
}

impl From<GroupsError> for TokenFault {
    ghost use Rattle.std.specs.Prelude.{◌≡◌};
    ghost use Rattle.doc_server_token.specs.NewReaders.{groups_fault};

    ghost from_gives = { λ error fault. fault ≡ groups_fault error };

    fn from(error: GroupsError) -> TokenFault {
        match error {
            GroupsError::BadGroup => TokenFault::BadGroup,
            GroupsError::TooMany => TokenFault::TooManyGroups,
            GroupsError::Memory => TokenFault::Memory,
        }
    }
}

impl From<Memory> for TokenFault {
    ghost use Rattle.std.specs.Prelude.{◌≡◌};
    ghost use Rattle.doc_server_token.specs.declared.fault.TokenFault.TheVariants as faults;

    ghost from_gives = { λ _ fault. fault ≡ faults.Memory };

    fn from(_e: Memory) -> TokenFault {
        TokenFault::Memory
    }
}

impl From<AllocError> for TokenFault {
    ghost use Rattle.std.specs.Prelude.{◌≡◌};
    ghost use Rattle.doc_server_token.specs.declared.fault.TokenFault.TheVariants as faults;

    ghost from_gives = { λ _ fault. fault ≡ faults.Memory };

    fn from(_e: AllocError) -> TokenFault {
        TokenFault::Memory
    }
}
