//! The room of journals in memory, without a server. A journal is to make room for a record of a text and to take it, twice. The calls are
//! given nothing.
//!
//! - `bounds`: a new journal in a file that isn't grown past so many bytes, for each number from none to a few more than two records take.
//! - `zeros`: a journal in a file that isn't grown, and has so many zeros behind the closed gate, for each number likewise.
//! - `faults`: a new journal in a file of which so many calls go well, for each number up to all that there are.
//!
//! An answer tells in a row, with how often each comes: whether room was made for the last record, which is nothing where a call failed;
//! by how many bytes the file may still be grown; and how many records are read of it then, or why they aren't.

ghost use Rattle.std.specs.Prelude.{◌≡◌, List, ℕ, false, IfOk, IfSome};
ghost use Rattle.doc_server_journal.specs.Devices.{IsFresh};
ghost use Rattle.doc_server_journal.specs.Journals.{IsOpen};
ghost use Rattle.doc_server_journal.specs.Memories.{has_failed, memory_leaves, memory_seen, memory_stale};

use crate::listen::journals::records_in;
use doc_page_parts::bytes::Bytes;
use doc_page_parts::failure::Memory;
use doc_page_parts::heap::{Heap, String, Vec};
use doc_server_journal::device::Device;
use doc_server_journal::fault::OpenFault;
use doc_server_journal::journal::{Journal, RECORD_BESIDE};
use doc_server_journal::memory::MemoryDevice;
use doc_server_journal::opening::{Opened, Refused};
use doc_server_journal::torn::Unkept;
use doc_server_journal_records::header::Identity;

/// The text of each record.
const TEXT: &[u8] = b"remove a\n";

/// How many bytes a record of it takes, with its gate.
const RECORD: usize = TEXT.len() + RECORD_BESIDE;

/// How many bytes a journal without records has.
const BEGUN: usize = 56;

/// Up to how many bytes a file may be grown where nothing is said of it.
const AMPLE: usize = 1_000;

/// How many calls two records and what is in front of them take, and one more.
const CALLS: u64 = 16;

/// A file in memory: what it holds, how many calls of it go well, and up to how many bytes it may be grown.
#[derive(Clone, Copy)]
struct Given<'a> {
    file: &'a [u8],
    calls: u64,
    most: usize,
}

/// Whether room was made for the last record, by how many bytes the file may still be grown, and what is read of it.
#[derive(Clone, Copy, Debug, PartialEq, Eq)]
struct Made {
    has_room: Option<bool>,
    left: usize,
    records: Result<usize, OpenFault>,
}

/// What came, and how often in a row.
#[derive(Clone, Copy)]
struct Run {
    made: Option<Made>,
    count: u64,
}

/// What a line answers; none that is no such call.
pub fn rooms_called(heap: Heap, line: &str) -> Result<Option<String>, Memory> {
    match line {
        "bounds" => Ok(Some(bounds_told(heap)?)),
        "zeros" => Ok(Some(zeros_told(heap)?)),
        "faults" => Ok(Some(faults_told(heap)?)),
        _ => Ok(None),
    }
}

fn bounds_told(heap: Heap) -> Result<String, Memory> {
    let mut out = String::new(heap);
    let mut run = no_run();
    for most in 0..BEGUN + RECORD + RECORD + 4 {
        let given = Given {
            file: &[],
            calls: u64::MAX,
            most,
        };
        run = make_on(heap, &mut out, run, given)?;
    }
    push_run(&mut out, run)?;
    Ok(out)
}

fn zeros_told(heap: Heap) -> Result<String, Memory> {
    let mut out = String::new(heap);
    let mut run = no_run();
    let mut file = begun(heap)?;
    for _ in 0..RECORD + RECORD + 4 {
        let given = Given {
            file: file.as_slice(),
            calls: u64::MAX,
            most: 0,
        };
        run = make_on(heap, &mut out, run, given)?;
        file.push(0)?;
    }
    drop(file);
    push_run(&mut out, run)?;
    Ok(out)
}

fn faults_told(heap: Heap) -> Result<String, Memory> {
    let mut out = String::new(heap);
    let mut run = no_run();
    for calls in 0..CALLS {
        let given = Given {
            file: &[],
            calls,
            most: AMPLE,
        };
        run = make_on(heap, &mut out, run, given)?;
    }
    push_run(&mut out, run)?;
    Ok(out)
}

/// The bytes of a journal without records.
fn begun(heap: Heap) -> Result<Vec<u8>, Memory> {
    let device = MemoryDevice::new(heap, Bytes::new(Vec::new(heap)), u64::MAX, 0)?;
    match Journal::make(heap, device, &identity()) {
        Ok(journal) => Ok(Vec::from_slice(heap, journal.device.bytes())?),
        Err(_) => Ok(Vec::new(heap)),
    }
}

fn identity() -> Identity {
    Identity::of(&[0; 16])
}

/// No run yet.
fn no_run() -> Run {
    Run {
        made: None,
        count: 0,
    }
}

/// Adds what comes of a file.
fn make_on(heap: Heap, out: &mut String, run: Run, given: Given<'_>) -> Result<Run, Memory> {
    let made = Some(made_of(heap, given)?);
    if run.made == made {
        return Ok(Run {
            made,
            count: run.count.saturating_add(1),
        });
    }
    push_run(out, run)?;
    Ok(Run { made, count: 1 })
}

fn push_run(out: &mut String, run: Run) -> Result<(), Memory> {
    let Some(
        Made {
            has_room,
            left,
            records,
        },
    ) = run.made
    else {
        return Ok(());
    };
    if !out.is_empty() {
        out.push_str("; ")?;
    }
    let count = run.count;
    write!(out, "{has_room:?} {left} {records:?} {count}")?;
    Ok(())
}

/// What comes of a file.
fn made_of(heap: Heap, given: Given<'_>) -> Result<Made, Memory> {
    let file = Bytes::copy_of(heap, given.file)?;
    let device = MemoryDevice::new(heap, file, given.calls, given.most)?;
    match journal_on(heap, device, given.file.len()) {
        Ok(mut journal) => {
            let has_room = fill(heap, &mut journal);
            let made = made_in(heap, has_room, &journal.device, given.most);
            drop(journal);
            made
        }
        Err(refused) => {
            let made = made_in(heap, None, &refused.device, given.most);
            drop(refused);
            made
        }
    }
}

/// What is told of a file behind all that.
fn made_in(
    heap: Heap,
    has_room: Option<bool>,
    device: &MemoryDevice,
    most: usize,
) -> Result<Made, Memory> {
    Ok(Made {
        has_room,
        left: most.saturating_sub(device.bytes().len()),
        records: records_in(heap, device.bytes())?,
    })
}

/// The journal of a file of so many bytes, a new one where it is empty.
fn journal_on(
    heap: Heap,
    device: MemoryDevice,
    len: usize,
) -> Result<Journal<MemoryDevice>, Refused<MemoryDevice>>
    requires usable { has_failed device ≡ false }
    requires fresh { IsFresh (memory_stale device) }
    ensures { IfOk result (λ journal. (texts : List (List ℕ))
        × IsOpen memory_seen memory_leaves has_failed memory_stale journal texts) }
{
    if len == 0 {
        return Journal::make(heap, device, &identity());
    }
    match Journal::open(heap, device, len, &mut Unkept) {
        Ok(Opened { journal, texts }) => {
            drop(texts);
            Ok(journal)
        }
        Err(refused) => Err(refused),
    }
}

/// Makes room for two records, one behind the other, and adds them. Whether there was room for the last one; none where a call failed.
fn fill(heap: Heap, journal: &mut Journal<MemoryDevice>) -> Option<bool>
    requires open { (texts : List (List ℕ))
        × IsOpen memory_seen memory_leaves has_failed memory_stale journal.old texts }
{
    if !add(heap, journal)? {
        return Some(false);
    }
    add(heap, journal)
}

/// Makes room for a record, and adds it where there is some. None where a call failed.
#[tactic(auto, unfolding(doc_server_journal_records::specs::Records::text_limit))]
pub fn add<D: Device>(heap: Heap, journal: &mut Journal<D>) -> Option<bool>
    requires open { (texts : List (List ℕ))
        × IsOpen D.seen D.may_leave D.failed D.stale journal.old texts }
    ensures open { IfSome result (λ _. (texts : List (List ℕ))
        × IsOpen D.seen D.may_leave D.failed D.stale journal.new texts) }
{
    match journal.make_room(RECORD) {
        Ok(true) => {}
        Ok(false) => return Some(false),
        Err(_) => return None,
    }
    match journal.append(heap, 0, TEXT) {
        Ok(()) => Some(true),
        Err(_) => None,
    }
}
