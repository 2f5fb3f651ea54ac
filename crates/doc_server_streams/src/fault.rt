//! What stops the program.

use doc_page_parts::failure::Memory;
use doc_page_parts::heap::String;
use std::alloc::AllocError;
use thiserror::Error;

/// What stops the program. Each prints one line, as `docs_server: usage`, and ends it with status 2. They are found in this order, but
/// that memory may run out anywhere, and that `CannotRead` of standard input comes where `BadScriptLine` does, and `Socket` of a
/// connection last.
#[derive(Debug, PartialEq, Eq, Drop, Error)]
pub enum Fault {
    /// No such command.
    #[error("usage")]
    Usage,
    /// A file that can't be read; `-` is standard input.
    #[error("cannot read {0}")]
    CannotRead(String),
    /// The configuration is none.
    #[error("config")]
    Config,
    /// The table of entities is none.
    #[error("bad table")]
    BadTable,
    /// An edit that is refused, or more input than a connection holds.
    #[error("refused")]
    Refused,
    /// A token that no reader has.
    #[error("unknown token")]
    UnknownToken,
    /// An address that can't be listened at, or a connection that can't be accepted.
    #[error("socket")]
    Socket,
    /// The first line of a script that is bad, counted from 1.
    #[error("bad script line {0}")]
    BadScriptLine(u64),
    #[error("cannot write")]
    CannotWrite,
    #[error("memory")]
    Memory,
}

impl From<Memory> for Fault {
    ghost use Rattle.std.specs.Prelude.{◌≡◌};
    ghost use Rattle.doc_server_streams.specs.declared.fault.Fault.TheVariants as faults;

    ghost from_gives = { λ _ e. e ≡ faults.Memory };

    fn from(_e: Memory) -> Fault {
        Fault::Memory
    }
}

impl From<AllocError> for Fault {
    ghost use Rattle.std.specs.Prelude.{◌≡◌};
    ghost use Rattle.doc_server_streams.specs.declared.fault.Fault.TheVariants as faults;

    ghost from_gives = { λ _ e. e ≡ faults.Memory };

    fn from(_e: AllocError) -> Fault {
        Fault::Memory
    }
}
