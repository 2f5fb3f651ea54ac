//! Why the site of a configuration isn't read.

use doc_page_parts::failure::Memory;
use doc_page_parts::path::Path;
use doc_server_config::bad_file::BadFile;
use doc_server_config::browsing::BrowseError;
use doc_server_config::listening::ListeningError;
use doc_server_streams::fault::Fault;
use std::alloc::AllocError;
use thiserror::Error;

/// Why the site of a configuration isn't read.
#[derive(Debug, Drop, Error)]
pub enum SiteFault {
    /// What stops each command.
    #[error("{0}")]
    Command(Fault),
    /// What the configuration says of a server that runs is bad.
    #[error("config: {0}")]
    Listening(ListeningError),
    /// What it says of the pages for people is bad.
    #[error("config: {0}")]
    Browsing(BrowseError),
    /// A file of a folder is bad.
    #[error("cannot read {0}")]
    Bad(BadFile),
    /// Two pages have this path, of which one is a folder's.
    #[error("config: {} twice", .0.text())]
    Twice(Path),
}

impl From<Fault> for SiteFault {
    ghost use Rattle.std.specs.Prelude.{◌≡◌};
    ghost use Rattle.doc_server_files.specs.declared.site_fault.SiteFault.TheVariants as faults;

    ghost from_gives = { λ fault stop. stop ≡ faults.Command fault };

    fn from(fault: Fault) -> SiteFault {
        SiteFault::Command(fault)
    }
}

impl From<Memory> for SiteFault {
    fn from(_e: Memory) -> SiteFault {
        SiteFault::Command(Fault::Memory)
    }
}

impl From<AllocError> for SiteFault {
    fn from(_e: AllocError) -> SiteFault {
        SiteFault::Command(Fault::Memory)
    }
}
