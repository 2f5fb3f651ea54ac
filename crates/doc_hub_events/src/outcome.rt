//! What comes of events.

ghost use Rattle.std.specs.Prelude.{◌≡◌};
ghost use Rattle.doc_hub_events.specs.Events.{connecting, pushing, stepping, putting, moving, setting, setting_all, setting_media};

use crate::event::{ConnId, Step};
use crate::refusal::{ConnectError, MediaSetError, PushError, Refusal, StepError};
use doc_store::moving::MoveError;
use doc_store::readers::{ReaderError, Set};
use doc_store::store::{EditError, Put};

/// What came of an event: what its call answered.
#[derive(Debug, Drop)]
pub enum Outcome {
    Conn(ConnId),
    Pushed,
    Stepped(Step),
    /// Whether there was such a connection.
    Disconnected(bool),
    Edited(Put),
    /// Whether a page stood under the path.
    Removed(bool),
    Moved,
    ReaderSet(Set),
    /// Whether the token had a reader.
    ReaderRemoved(bool),
    /// The readers are others.
    ReadersSet,
    /// Puts are taken from here on, or none is.
    PutsSet,
    /// The media are others.
    MediaSet,
    /// The event did nothing.
    Refused(Refusal),
}

impl From<Result<ConnId, ConnectError>> for Outcome {
    ghost from_gives = { λ said outcome. outcome ≡ connecting said };

    fn from(said: Result<ConnId, ConnectError>) -> Outcome {
        match said {
            Ok(id) => Outcome::Conn(id),
            Err(error) => Outcome::Refused(Refusal::from(error)),
        }
    }
}

impl From<Result<(), PushError>> for Outcome {
    ghost from_gives = { λ said outcome. outcome ≡ pushing said };

    fn from(said: Result<(), PushError>) -> Outcome {
        match said {
            Ok(()) => Outcome::Pushed,
            Err(error) => Outcome::Refused(Refusal::from(error)),
        }
    }
}

impl From<Result<Step, StepError>> for Outcome {
    ghost from_gives = { λ said outcome. outcome ≡ stepping said };

    fn from(said: Result<Step, StepError>) -> Outcome {
        match said {
            Ok(step) => Outcome::Stepped(step),
            Err(error) => Outcome::Refused(Refusal::from(error)),
        }
    }
}

impl From<Result<Put, EditError>> for Outcome {
    ghost from_gives = { λ said outcome. outcome ≡ putting said };

    fn from(said: Result<Put, EditError>) -> Outcome {
        match said {
            Ok(put) => Outcome::Edited(put),
            Err(error) => Outcome::Refused(Refusal::from(error)),
        }
    }
}

impl From<Result<(), MoveError>> for Outcome {
    ghost from_gives = { λ said outcome. outcome ≡ moving said };

    fn from(said: Result<(), MoveError>) -> Outcome {
        match said {
            Ok(()) => Outcome::Moved,
            Err(error) => Outcome::Refused(Refusal::from(error)),
        }
    }
}

impl From<Result<Set, ReaderError>> for Outcome {
    ghost from_gives = { λ said outcome. outcome ≡ setting said };

    fn from(said: Result<Set, ReaderError>) -> Outcome {
        match said {
            Ok(set) => Outcome::ReaderSet(set),
            Err(error) => Outcome::Refused(Refusal::from(error)),
        }
    }
}

impl From<Result<(), ReaderError>> for Outcome {
    ghost from_gives = { λ said outcome. outcome ≡ setting_all said };

    fn from(said: Result<(), ReaderError>) -> Outcome {
        match said {
            Ok(()) => Outcome::ReadersSet,
            Err(error) => Outcome::Refused(Refusal::from(error)),
        }
    }
}

impl From<Result<(), MediaSetError>> for Outcome {
    ghost from_gives = { λ said outcome. outcome ≡ setting_media said };

    fn from(said: Result<(), MediaSetError>) -> Outcome {
        match said {
            Ok(()) => Outcome::MediaSet,
            Err(error) => Outcome::Refused(Refusal::from(error)),
        }
    }
}
