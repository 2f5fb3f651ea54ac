//! Why a reload of pages isn't made.

use doc_hub::refusal::MediaSetError;
use doc_page_parts::failure::Memory;
use doc_server_reload::anew::TextsFault;
use doc_server_restore::fault::RestoreFault;
use doc_server_settling::fault::TurnFault;
use thiserror::Error;

/// Why a reload of pages is refused: all is as it was.
#[derive(Clone, Copy, Debug, Error)]
pub enum Refusal {
    /// The file of the journal isn't that of the open one.
    #[error("not the open journal")]
    Other,
    /// A record of the journal can't be made again over the pages, as a start would say.
    #[error("{0}")]
    Record(RestoreFault),
    /// The journal has no room for the removal of each page.
    #[error("journal is full")]
    Full,
    /// A medium has the path of a page that stands, or of an alias.
    #[error("a medium has the path of a page that stands")]
    Taken,
    /// No memory was left.
    #[error("{}", Memory)]
    Memory,
}

impl From<MediaSetError> for Refusal {
    ghost use Rattle.std.specs.Prelude.{◌≡◌};
    ghost use Rattle.doc_server_network.specs.Reloads.{of_media};

    ghost from_gives = { λ e refusal. refusal ≡ of_media e };

    fn from(e: MediaSetError) -> Refusal {
        match e {
            MediaSetError::Taken => Refusal::Taken,
            MediaSetError::Memory => Refusal::Memory,
        }
    }
}

/// Why a reload of pages isn't made.
#[derive(Clone, Copy, Debug, Error)]
pub enum ReloadFault {
    /// It is refused.
    #[error("{0}")]
    Refused(Refusal),
    /// The server ends: the journal's device has failed.
    #[error("{0}")]
    Ends(TurnFault),
}

impl From<TextsFault> for ReloadFault {
    ghost use Rattle.std.specs.Prelude.{◌≡◌};
    ghost use Rattle.doc_server_network.specs.Reloads.{of_texts};

    ghost from_gives = { λ e fault. fault ≡ of_texts e };

    fn from(e: TextsFault) -> ReloadFault {
        match e {
            TextsFault::Long => ReloadFault::Refused(Refusal::Other),
            TextsFault::Other => ReloadFault::Refused(Refusal::Other),
            TextsFault::Memory => ReloadFault::Refused(Refusal::Memory),
            TextsFault::Failed => ReloadFault::Ends(TurnFault::CannotWrite),
        }
    }
}

impl From<RestoreFault> for ReloadFault {
    ghost use Rattle.std.specs.Prelude.{◌≡◌};
    ghost use Rattle.doc_server_network.specs.Reloads.{of_restore};

    ghost from_gives = { λ e fault. fault ≡ of_restore e };

    fn from(e: RestoreFault) -> ReloadFault {
        match e {
            RestoreFault::Memory => ReloadFault::Refused(Refusal::Memory),
            fault => ReloadFault::Refused(Refusal::Record(fault)),
        }
    }
}

impl From<Memory> for ReloadFault {
    ghost use Rattle.std.specs.Prelude.{◌≡◌};
    ghost use Rattle.doc_server_network.specs.declared.reload_fault.ReloadFault.TheVariants as faults;
    ghost use Rattle.doc_server_network.specs.declared.reload_fault.Refusal.TheVariants as refusals;

    ghost from_gives = { λ _ fault. fault ≡ faults.Refused refusals.Memory };

    fn from(_e: Memory) -> ReloadFault {
        ReloadFault::Refused(Refusal::Memory)
    }
}
