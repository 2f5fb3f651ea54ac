//! What a journal's file has, read anew: as it is, and damaged or torn in each way.
//!
//! - `file`: how many bytes it has up to the last that isn't 0, and how many zeros stand behind. `records`: the texts of its records, one
//!   behind another.
//! - `flips`: what comes where the last bit of one byte is turned, for each byte up to the last that isn't 0. `cuts`: what comes where the
//!   file ends behind so many bytes, for each number from none to all of these. That is how many records are read, or why they aren't, with
//!   the number of times that it comes in a row.

use crate::listen::told::push_told;
use doc_page_parts::bytes::Bytes;
use doc_page_parts::failure::Memory;
use doc_page_parts::heap::{Heap, String, Vec};
use doc_server_journal::fault::OpenFault;
use doc_server_journal::journal::Journal;
use doc_server_journal::memory::MemoryDevice;
use doc_server_journal::opening::{Opened, Refused};
use doc_server_journal::torn::Unkept;
use trial::answer::{no_call, shown};

/// What a call of the journal answers.
pub fn journal_called(heap: Heap, bytes: &[u8], name: &str) -> Result<String, Memory> {
    match name {
        "file" => shown(heap, (without_zeros(bytes).len(), zeros_behind(bytes))),
        "records" => records_told(heap, bytes),
        "flips" => flips_told(heap, without_zeros(bytes)),
        "cuts" => cuts_told(heap, without_zeros(bytes)),
        _ => no_call(heap),
    }
}

/// The bytes up to the last that isn't 0.
pub fn without_zeros(bytes: &[u8]) -> &[u8] {
    match bytes.iter().rposition(|byte| *byte != 0) {
        Some(last) => bytes.get(..=last).unwrap_or(bytes),
        None => &[],
    }
}

fn zeros_behind(bytes: &[u8]) -> usize {
    bytes.len().saturating_sub(without_zeros(bytes).len())
}

/// How many records are read of a file with these bytes, or why they can't be read.
pub fn records_in(heap: Heap, bytes: &[u8]) -> Result<Result<usize, OpenFault>, Memory> {
    let mut all = Vec::new(heap);
    let read = read_into(heap, bytes, &mut all);
    drop(all);
    read
}

fn told(heap: Heap, bytes: &[u8]) -> Result<String, Memory> {
    let mut out = String::new(heap);
    push_told(&mut out, bytes)?;
    Ok(out)
}

/// The texts of the records of a file, one behind another, or why they can't be read.
fn records_told(heap: Heap, bytes: &[u8]) -> Result<String, Memory> {
    let mut all = Vec::new(heap);
    match read_into(heap, bytes, &mut all)? {
        Ok(_) => told(heap, all.as_slice()),
        Err(fault) => Ok(format!(in heap; "{fault}")?),
    }
}

/// Reads a file with these bytes, adds the texts of its records, and answers how many they are, or why they can't be read.
fn read_into(
    heap: Heap,
    bytes: &[u8],
    all: &mut Vec<u8>,
) -> Result<Result<usize, OpenFault>, Memory> {
    let device = MemoryDevice::new(heap, Bytes::copy_of(heap, bytes)?, u64::MAX, 0)?;
    match Journal::open(heap, device, bytes.len(), &mut Unkept) {
        Ok(opened) => read_texts(opened, all),
        Err(refused) => Ok(Err(fault_of(refused))),
    }
}

fn fault_of(refused: Refused<MemoryDevice>) -> OpenFault {
    refused.fault
}

fn read_texts(
    opened: Opened<MemoryDevice>,
    all: &mut Vec<u8>,
) -> Result<Result<usize, OpenFault>, Memory> {
    let texts = opened.texts.get();
    for text in texts {
        all.extend_from_slice(text.get())?;
    }
    Ok(Ok(texts.len()))
}

/// What came of a reading, and how often in a row.
#[derive(Clone, Copy)]
struct Run {
    outcome: Option<Result<usize, OpenFault>>,
    count: u64,
}

/// Adds what comes of the reading of a file with these bytes.
fn read_on(heap: Heap, out: &mut String, run: Run, bytes: &[u8]) -> Result<Run, Memory> {
    let outcome = Some(read_into(heap, bytes, &mut Vec::new(heap))?);
    if run.outcome == outcome {
        return Ok(Run {
            outcome,
            count: run.count.saturating_add(1),
        });
    }
    push_run(out, run)?;
    Ok(Run { outcome, count: 1 })
}

fn push_run(out: &mut String, run: Run) -> Result<(), Memory> {
    let Some(outcome) = run.outcome else {
        return Ok(());
    };
    if !out.is_empty() {
        out.push_str("; ")?;
    }
    let count = run.count;
    write!(out, "{outcome:?} {count}")?;
    Ok(())
}

/// No reading yet.
fn no_run() -> Run {
    Run {
        outcome: None,
        count: 0,
    }
}

fn cuts_told(heap: Heap, bytes: &[u8]) -> Result<String, Memory> {
    let mut out = String::new(heap);
    let mut run = no_run();
    for len in 0..=bytes.len() {
        run = read_on(heap, &mut out, run, bytes.get(..len).unwrap_or(bytes))?;
    }
    push_run(&mut out, run)?;
    Ok(out)
}

fn flips_told(heap: Heap, bytes: &[u8]) -> Result<String, Memory> {
    let mut out = String::new(heap);
    let mut run = no_run();
    for at in 0..bytes.len() {
        run = read_flipped(heap, &mut out, run, bytes, at)?;
    }
    push_run(&mut out, run)?;
    Ok(out)
}

fn read_flipped(
    heap: Heap,
    out: &mut String,
    run: Run,
    bytes: &[u8],
    at: usize,
) -> Result<Run, Memory> {
    let mut flipped = Vec::from_slice(heap, bytes)?;
    if let Some(byte) = flipped.get_mut(at) {
        *byte ^= 1;
    }
    let run = read_on(heap, out, run, flipped.as_slice());
    drop(flipped);
    run
}
