//! Why another server isn't followed any more.

use doc_server_restore::fault::RestoreFault;
use thiserror::Error;

/// Why another server isn't followed any more.
#[derive(Clone, Copy, Debug, Error)]
pub enum FollowFault {
    /// A journal is kept, which wouldn't say what was followed.
    #[error("a journal is kept")]
    Keeps,
    /// One of its records isn't made. They are counted from the first of those that came at once.
    #[error("{0}")]
    Record(RestoreFault),
    /// What it has written is damaged, or isn't read.
    #[error("damaged")]
    Damaged,
}

impl From<RestoreFault> for FollowFault {
    ghost use Rattle.std.specs.Prelude.{◌≡◌};
    ghost use Rattle.doc_server_network.specs.declared.follow_fault.FollowFault.TheVariants as faults;

    ghost from_gives = { λ e fault. fault ≡ faults.Record e };

    fn from(e: RestoreFault) -> FollowFault {
        FollowFault::Record(e)
    }
}
