//! Commands on what a call is given.

use crate::commands::Command;
use crate::feed::Feed;
use crate::sink::Sink;
use crate::ways::{Given, read_given};
use doc_page_parts::failure::Memory;
use doc_page_parts::heap::{Heap, String};
use doc_server::fault::Fault;
use doc_server_streams::read_from::ReadFrom;
use doc_server_streams::write_to::WriteTo;
use trial::answer::no_call;

/// A fault has room in so many bytes: so it is told also where all growths behind the first one are refused.
const ROOM: usize = 64;

/// What is printed for a call of this name.
pub fn called(heap: Heap, name: &str, given: &str) -> Result<String, Memory> {
    let Some(given) = read_given(given) else {
        return no_call(heap);
    };
    match name {
        "demo" => answer(heap, Command::Demo, given),
        "render" => answer(heap, Command::Render, given),
        "examples" => answer(heap, Command::Examples, given),
        _ => no_call(heap),
    }
}

/// What is printed for a command.
fn answer(heap: Heap, command: Command, given: Given<'_>) -> Result<String, Memory> {
    let mut out = String::with_capacity(heap, ROOM)?;
    match push_answer(&mut out, heap, command, given) {
        Ok(()) => Ok(out),
        Err(Memory) => Err(Memory),
    }
}

/// Runs a command, and writes what came of it.
fn push_answer(
    out: &mut String,
    heap: Heap,
    command: Command,
    given: Given<'_>,
) -> Result<(), Memory> {
    let mut output = WriteTo::new(Sink::new(heap, given)?);
    let mut input = ReadFrom::new(Feed::new(given));
    let ended = command.run(heap, &mut input, &mut output);
    let leaves = input.reader().is_left();
    drop(input);
    let wrote = output.into_writer().into_text(heap);
    let pushed = push_came(out, ended, leaves, &wrote);
    drop(wrote);
    pushed
}

/// Writes the status that a command ended with or what stopped it, whether it left bytes of the input, and what it wrote.
fn push_came(
    out: &mut String,
    ended: Result<u8, Fault>,
    leaves: bool,
    wrote: &str,
) -> Result<(), Memory> {
    match ended {
        Ok(status) => write!(out, "status {status}; ")?,
        Err(fault) => write!(out, "{fault}; ")?,
    }
    if leaves {
        out.push_str("not all was read; ")?;
    }
    write!(out, "wrote {wrote:?}")?;
    Ok(())
}
