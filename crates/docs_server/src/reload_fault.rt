//! Why a reload is refused.

use crate::listen_fault::ListenFault;
use doc_page_parts::failure::Memory;
use doc_page_parts::text::Text;
use doc_server_files::site_fault::SiteFault;
use doc_server_streams::fault::Fault;
use thiserror::Error;

/// Why a reload is refused: all stays as it was.
#[derive(Debug, Drop, Error)]
pub enum ReloadFault {
    /// A server wouldn't start with the file.
    #[error("{0}")]
    Config(ListenFault),
    /// Something else than readers and pages has changed in it: what this key says.
    #[error("needs a restart: `{}`", .0.get())]
    Changed(Text),
    /// Files of its folders changed each time that they were read.
    #[error("the files are changing")]
    Changing,
}

impl From<ListenFault> for ReloadFault {
    ghost use Rattle.std.specs.Prelude.{◌≡◌};
    ghost use Rattle.docs_server.specs.declared.reload_fault.ReloadFault.TheVariants as faults;

    ghost from_gives = { λ fault refused. refused ≡ faults.Config fault };

    fn from(fault: ListenFault) -> ReloadFault {
        ReloadFault::Config(fault)
    }
}

impl From<SiteFault> for ReloadFault {
    ghost use Rattle.std.specs.Prelude.{◌≡◌};
    ghost use Rattle.docs_server.specs.declared.listen_fault.ListenFault.TheVariants as stops;
    ghost use Rattle.docs_server.specs.declared.reload_fault.ReloadFault.TheVariants as faults;

    ghost from_gives = { λ fault refused. refused ≡ faults.Config (stops.Site fault) };

    fn from(fault: SiteFault) -> ReloadFault {
        ReloadFault::Config(ListenFault::Site(fault))
    }
}

impl From<Memory> for ReloadFault {
    ghost use Rattle.std.specs.Prelude.{⊤};

    ghost from_gives = { λ _ _. ⊤ };

    fn from(_: Memory) -> ReloadFault {
        ReloadFault::Config(ListenFault::Command(Fault::Memory))
    }
}
