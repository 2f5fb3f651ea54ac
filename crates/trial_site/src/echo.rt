//! A stream over memory, to which its text is written by one call, and then, turn by turn, what is read from it.

ghost use Rattle.std.specs.Prelude.{◌≡◌};

use crate::streams::Streamed;
use doc_page_parts::failure::Memory;
use doc_page_parts::heap::{Heap, String};
use doc_server_streams::memory_stream::MemoryStream;
use doc_server_streams::stream::Stream;
use std::str::from_utf8;
use trial::answer::no_call;

/// A turn reads so many bytes at most.
const ROOM: usize = 4;

/// More turns than a call here takes.
const MANY: u32 = 100;

/// Why no further turn is made.
#[derive(Clone, Copy, Debug)]
enum End {
    /// A read gave nothing.
    Read0,
    /// A write took nothing.
    Write0,
    ReadFailed,
    WriteFailed,
    TooMany,
}

/// How many calls there were, and why no further one.
#[derive(Clone, Copy)]
struct Told {
    reads: u32,
    writes: u32,
    end: End,
}

/// What is printed for `PIECE READ WRITE TEXT`: what came of a stream of this text, whose read and write of these numbers fail (0: none).
pub fn answer(heap: Heap, given: &str) -> Result<String, Memory> {
    match Streamed::read(given) {
        Some(streamed) => echoed(heap, streamed),
        None => no_call(heap),
    }
}

fn echoed(heap: Heap, streamed: Streamed<'_>) -> Result<String, Memory> {
    let mut stream = streamed.stream(heap)?;
    let told = echo(&mut stream, streamed.text.as_bytes());
    let printed = printed(heap, told, &stream);
    drop(stream);
    printed
}

fn printed(heap: Heap, told: Told, stream: &MemoryStream) -> Result<String, Memory> {
    let Told { reads, writes, end } = told;
    let failures = stream.failures();
    let wrote = from_utf8(stream.written()).unwrap_or("no text");
    Ok(format!(in heap;
        "{reads} reads, {writes} writes, {end:?}, {failures} failures, wrote {wrote:?}"
    )?)
}

/// Writes the bytes, and makes turns until one is the last.
fn echo(stream: &mut MemoryStream, bytes: &[u8]) -> Told {
    let mut told = Told {
        reads: 0,
        writes: 0,
        end: End::TooMany,
    };
    told.end = match write(stream, bytes, &mut told) {
        Some(end) => end,
        None => echo_turns(stream, &mut told),
    };
    told
}

fn echo_turns(stream: &mut MemoryStream, told: &mut Told) -> End {
    'turns: for _ in 0..MANY {
        if let Some(end) = turn(stream, told) {
            return end;
        }
    }
    End::TooMany
}

/// Reads once, and writes what was read by one call.
fn turn(stream: &mut MemoryStream, told: &mut Told) -> Option<End> {
    let mut buffer = [0; ROOM];
    if stream.failures() != 0 {
        return Some(End::TooMany);
    }
    told.reads = told.reads.saturating_add(1);
    let Ok(count) = stream.read(&mut buffer) else {
        return Some(End::ReadFailed);
    };
    match buffer.get(..count) {
        Some(bytes) if !bytes.is_empty() => write(stream, bytes, told),
        _ => Some(End::Read0),
    }
}

fn write(stream: &mut MemoryStream, bytes: &[u8], told: &mut Told) -> Option<End> {
    if stream.failures() != 0 {
        return Some(End::TooMany);
    }
    told.writes = told.writes.saturating_add(1);
    match stream.write(bytes) {
        Ok(0) => Some(End::Write0),
        Ok(_) => None,
        Err(_) => Some(End::WriteFailed),
    }
}
