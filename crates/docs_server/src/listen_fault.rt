//! What stops the commands `listen` and `compact`.

use doc_page_parts::failure::Memory;
use doc_server_compacting::fault::CompactingFault;
use doc_server_files::site_fault::SiteFault;
use doc_server_journal::fault::OpenFault;
use doc_server_journal::file_fault::FileFault;
use doc_server_restore::compact_fault::CompactFault;
use doc_server_restore::fault::RestoreFault;
use doc_server_serving::fault::ServeFault;
use doc_server_serving::hosting::fault::HostingFault;
use doc_server_serving::net::follow_fault::FollowFault;
use doc_server_streams::fault::Fault;
use std::alloc::AllocError;
use thiserror::Error;

/// What stops the commands `listen` and `compact`.
#[derive(Debug, Drop, Error)]
pub enum ListenFault {
    /// What stops other commands too.
    #[error("{0}")]
    Command(Fault),
    /// The configuration's site isn't read.
    #[error("{0}")]
    Site(SiteFault),
    /// The journal's file isn't opened.
    #[error("{0}")]
    File(FileFault),
    /// The journal isn't read.
    #[error("{0}")]
    Journal(OpenFault),
    /// The disk has no room for the journal's reserve.
    #[error("no room for the journal")]
    NoRoom,
    /// The journal's file lost its name while the server ran.
    #[error("journal moved")]
    Moved,
    /// The journal's edits can't be made.
    #[error("{0}")]
    Restore(RestoreFault),
    /// The journal of another server isn't followed any more.
    #[error("{0}")]
    Follow(FollowFault),
    /// The new journal isn't written.
    #[error("{0}")]
    Compact(CompactFault),
    /// The configuration's site has too few stamps left for the edits of the new journal.
    #[error("no stamps left for the edits")]
    NoStamps,
}

impl From<Fault> for ListenFault {
    ghost use Rattle.std.specs.Prelude.{◌≡◌};
    ghost use Rattle.docs_server.specs.declared.listen_fault.ListenFault.TheVariants as faults;

    ghost from_gives = { λ fault stop. stop ≡ faults.Command fault };

    fn from(fault: Fault) -> ListenFault {
        ListenFault::Command(fault)
    }
}

impl From<SiteFault> for ListenFault {
    ghost use Rattle.std.specs.Prelude.{◌≡◌};
    ghost use Rattle.docs_server.specs.declared.listen_fault.ListenFault.TheVariants as faults;

    ghost from_gives = { λ fault stop. stop ≡ faults.Site fault };

    fn from(fault: SiteFault) -> ListenFault {
        ListenFault::Site(fault)
    }
}

impl From<FileFault> for ListenFault {
    ghost use Rattle.std.specs.Prelude.{◌≡◌};
    ghost use Rattle.docs_server.specs.declared.listen_fault.ListenFault.TheVariants as faults;

    ghost from_gives = { λ fault stop. stop ≡ faults.File fault };

    fn from(fault: FileFault) -> ListenFault {
        ListenFault::File(fault)
    }
}

impl From<OpenFault> for ListenFault {
    ghost use Rattle.std.specs.Prelude.{◌≡◌};
    ghost use Rattle.docs_server.specs.declared.listen_fault.ListenFault.TheVariants as faults;

    ghost from_gives = { λ fault stop. stop ≡ faults.Journal fault };

    fn from(fault: OpenFault) -> ListenFault {
        ListenFault::Journal(fault)
    }
}

impl From<RestoreFault> for ListenFault {
    ghost use Rattle.std.specs.Prelude.{◌≡◌};
    ghost use Rattle.docs_server.specs.declared.listen_fault.ListenFault.TheVariants as faults;

    ghost from_gives = { λ fault stop. stop ≡ faults.Restore fault };

    fn from(fault: RestoreFault) -> ListenFault {
        ListenFault::Restore(fault)
    }
}

impl From<ServeFault> for ListenFault {
    ghost use Rattle.std.specs.Prelude.{◌≡◌};
    ghost use Rattle.docs_server.specs.Stops.{stop_of};

    ghost from_gives = { λ fault stop. stop ≡ stop_of fault };

    fn from(fault: ServeFault) -> ListenFault {
        match fault {
            ServeFault::Socket => ListenFault::Command(Fault::Socket),
            ServeFault::CannotWrite => ListenFault::Command(Fault::CannotWrite),
            ServeFault::Memory => ListenFault::Command(Fault::Memory),
            ServeFault::Follow(fault) => ListenFault::Follow(fault),
        }
    }
}

impl From<HostingFault<ListenFault>> for ListenFault {
    fn from(fault: HostingFault<ListenFault>) -> ListenFault {
        match fault {
            HostingFault::Host(fault) => fault,
            HostingFault::Journal(fault) => ListenFault::Journal(fault),
            HostingFault::Restore(fault) => ListenFault::Restore(fault),
            HostingFault::NoRoom => ListenFault::NoRoom,
            HostingFault::Serve(fault) => ListenFault::from(fault),
        }
    }
}

impl From<CompactingFault> for ListenFault {
    fn from(fault: CompactingFault) -> ListenFault {
        match fault {
            CompactingFault::File(fault) => ListenFault::File(fault),
            CompactingFault::Journal(fault) => ListenFault::Journal(fault),
            CompactingFault::Restore(fault) => ListenFault::Restore(fault),
            CompactingFault::Compact(fault) => ListenFault::Compact(fault),
            CompactingFault::NoRoom => ListenFault::NoRoom,
            CompactingFault::NoStamps => ListenFault::NoStamps,
            CompactingFault::Memory => ListenFault::Command(Fault::Memory),
        }
    }
}

impl From<Memory> for ListenFault {
    fn from(_e: Memory) -> ListenFault {
        ListenFault::Command(Fault::Memory)
    }
}

impl From<AllocError> for ListenFault {
    fn from(_e: AllocError) -> ListenFault {
        ListenFault::Command(Fault::Memory)
    }
}
