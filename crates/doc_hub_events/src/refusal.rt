//! Why a hub refuses a call. Each refusal leaves the hub as it was.

ghost use Rattle.std.specs.Prelude.{◌≡◌};
ghost use Rattle.doc_hub_events.specs.Events.{connect_refusal, edit_refusal, media_refusal, move_refusal};
ghost use Rattle.doc_hub_events.specs.Events.{push_refusal, reader_refusal, step_refusal};

use doc_page_parts::failure::Memory;
use doc_store::moving::MoveError;
use doc_store::readers::ReaderError;
use doc_store::store::EditError;
use thiserror::Error;

/// Why no hub was made.
#[derive(Clone, Copy, Debug, PartialEq, Eq, Error)]
pub enum HubError {
    /// The cache's capacity isn't 1 to 4,096.
    #[error("the cache's capacity is not 1 to 4096")]
    BadCapacity,
    #[error("{}", Memory)]
    Memory,
}

impl From<Memory> for HubError {
    ghost use Rattle.std.specs.Prelude.{◌≡◌};
    ghost use Rattle.doc_hub_events.specs.declared.refusal.HubError.TheVariants as refusals;

    ghost from_gives = { λ _ e. e ≡ refusals.Memory };

    fn from(_e: Memory) -> HubError {
        HubError::Memory
    }
}

/// Why no connection was made.
#[derive(Clone, Copy, Debug, PartialEq, Eq, Error)]
pub enum ConnectError {
    /// All numbers of connections were given.
    #[error("no number is left for a connection")]
    NoIds,
    #[error("{}", Memory)]
    Memory,
}

impl From<Memory> for ConnectError {
    ghost use Rattle.std.specs.Prelude.{◌≡◌};
    ghost use Rattle.doc_hub_events.specs.declared.refusal.ConnectError.TheVariants as refusals;

    ghost from_gives = { λ _ e. e ≡ refusals.Memory };

    fn from(_e: Memory) -> ConnectError {
        ConnectError::Memory
    }
}

/// Why bytes were not taken from a connection's peer.
#[derive(Clone, Copy, Debug, PartialEq, Eq, Error)]
pub enum PushError {
    /// The number was never given, or its connection was dropped.
    #[error("no such connection")]
    NoConnection,
    /// The connection is closed.
    #[error("the connection is closed")]
    Closed,
    /// More than 4,194,304 unread bytes would stand.
    #[error("too many unread bytes")]
    Backlog,
    #[error("{}", Memory)]
    Memory,
}

impl From<Memory> for PushError {
    ghost use Rattle.std.specs.Prelude.{◌≡◌};
    ghost use Rattle.doc_hub_events.specs.declared.refusal.PushError.TheVariants as refusals;

    ghost from_gives = { λ _ e. e ≡ refusals.Memory };

    fn from(_e: Memory) -> PushError {
        PushError::Memory
    }
}

/// Why a step did nothing.
#[derive(Clone, Copy, Debug, PartialEq, Eq, Error)]
pub enum StepError {
    /// The number was never given, or its connection was dropped.
    #[error("no such connection")]
    NoConnection,
    /// The request waits, and a later step answers it.
    #[error("{}", Memory)]
    Memory,
}

impl From<Memory> for StepError {
    ghost use Rattle.std.specs.Prelude.{◌≡◌};
    ghost use Rattle.doc_hub_events.specs.declared.refusal.StepError.TheVariants as refusals;

    ghost from_gives = { λ _ e. e ≡ refusals.Memory };

    fn from(_e: Memory) -> StepError {
        StepError::Memory
    }
}

/// Why the media weren't set.
#[derive(Clone, Copy, Debug, PartialEq, Eq, Error)]
pub enum MediaSetError {
    /// One of them has the path of a page, or of an alias.
    #[error("a medium has a path of a page")]
    Taken,
    #[error("{}", Memory)]
    Memory,
}

impl From<Memory> for MediaSetError {
    ghost use Rattle.std.specs.Prelude.{◌≡◌};
    ghost use Rattle.doc_hub_events.specs.declared.refusal.MediaSetError.TheVariants as refusals;

    ghost from_gives = { λ _ e. e ≡ refusals.Memory };

    fn from(_e: Memory) -> MediaSetError {
        MediaSetError::Memory
    }
}

/// Why an event did nothing: the refusals of all calls, under the names that they have there.
#[derive(Clone, Copy, Debug, PartialEq, Eq, Error)]
pub enum Refusal {
    #[error("{}", ConnectError::NoIds)]
    NoIds,
    #[error("{}", PushError::NoConnection)]
    NoConnection,
    #[error("{}", PushError::Closed)]
    Closed,
    #[error("{}", PushError::Backlog)]
    Backlog,
    #[error("{}", EditError::TooLong)]
    TooLong,
    #[error("{}", EditError::StoreFull)]
    StoreFull,
    #[error("{}", MoveError::NoPage)]
    NoPage,
    #[error("{}", MoveError::Taken)]
    Taken,
    #[error("{}", ReaderError::BadToken)]
    BadToken,
    #[error("{}", Memory)]
    Memory,
}

impl From<ConnectError> for Refusal {
    ghost from_gives = { λ error refusal. refusal ≡ connect_refusal error };

    fn from(error: ConnectError) -> Refusal {
        match error {
            ConnectError::NoIds => Refusal::NoIds,
            ConnectError::Memory => Refusal::Memory,
        }
    }
}

impl From<PushError> for Refusal {
    ghost from_gives = { λ error refusal. refusal ≡ push_refusal error };

    fn from(error: PushError) -> Refusal {
        match error {
            PushError::NoConnection => Refusal::NoConnection,
            PushError::Closed => Refusal::Closed,
            PushError::Backlog => Refusal::Backlog,
            PushError::Memory => Refusal::Memory,
        }
    }
}

impl From<StepError> for Refusal {
    ghost from_gives = { λ error refusal. refusal ≡ step_refusal error };

    fn from(error: StepError) -> Refusal {
        match error {
            StepError::NoConnection => Refusal::NoConnection,
            StepError::Memory => Refusal::Memory,
        }
    }
}

impl From<EditError> for Refusal {
    ghost from_gives = { λ error refusal. refusal ≡ edit_refusal error };

    fn from(error: EditError) -> Refusal {
        match error {
            EditError::Taken => Refusal::Taken,
            EditError::TooLong => Refusal::TooLong,
            EditError::StoreFull => Refusal::StoreFull,
            EditError::Memory => Refusal::Memory,
        }
    }
}

impl From<MoveError> for Refusal {
    ghost from_gives = { λ error refusal. refusal ≡ move_refusal error };

    fn from(error: MoveError) -> Refusal {
        match error {
            MoveError::NoPage => Refusal::NoPage,
            MoveError::Taken => Refusal::Taken,
            MoveError::StoreFull => Refusal::StoreFull,
            MoveError::Memory => Refusal::Memory,
        }
    }
}

impl From<ReaderError> for Refusal {
    ghost from_gives = { λ error refusal. refusal ≡ reader_refusal error };

    fn from(error: ReaderError) -> Refusal {
        match error {
            ReaderError::BadToken => Refusal::BadToken,
            ReaderError::Memory => Refusal::Memory,
        }
    }
}

impl From<MediaSetError> for Refusal {
    ghost from_gives = { λ error refusal. refusal ≡ media_refusal error };

    fn from(error: MediaSetError) -> Refusal {
        match error {
            MediaSetError::Taken => Refusal::Taken,
            MediaSetError::Memory => Refusal::Memory,
        }
    }
}
