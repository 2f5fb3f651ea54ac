//! Why a file that grows isn't read.

use doc_page_parts::failure::Memory;
use thiserror::Error;

/// Why a file that grows isn't read.
#[derive(Clone, Copy, Debug, PartialEq, Eq, Error)]
pub enum GrowingFault {
    /// The system has refused it, or the file is longer than a number of this machine says.
    #[error("cannot read")]
    Failed,
    #[error("{}", Memory)]
    Memory,
}

impl From<Memory> for GrowingFault {
    ghost use Rattle.std.specs.Prelude.{◌≡◌};
    ghost use Rattle.doc_server_follow.specs.declared.growing_fault.GrowingFault.TheVariants as refusals;

    ghost from_gives = { λ _ fault. fault ≡ refusals.Memory };

    fn from(_e: Memory) -> GrowingFault {
        GrowingFault::Memory
    }
}
