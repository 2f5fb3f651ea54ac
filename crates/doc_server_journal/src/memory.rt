//! A file in memory, for tests.

ghost use Rattle.std.specs.Prelude.{◌≡◌, ◌≤◌, ◌<◌, ◌^◌, ◌++◌, ◌+◌, ◌∷◌, [], List as Seq, ℕ, length, take, drop, replicate, false, OnOk, OnErr, IfOk};
ghost use Rattle.doc_server_journal.specs.declared.memory.Change.TheVariants as changes;
ghost use Rattle.doc_server_journal.specs.Memories.{memory_bytes, memory_leaves, memory_stale, has_failed, MayNote};
ghost use Rattle.doc_server_journal.specs.Devices.{IsFresh};

use crate::device::Device;
use crate::fault::{DeviceFault, LoadError};
use doc_page_parts::bytes::Bytes;
use doc_page_parts::failure::Memory;
use doc_page_parts::heap::{Heap, Vec};

/// A change of a file, or a sync, at which it held those bytes.
#[derive(Drop)]
enum Change {
    /// Bytes that were to be written from there on, and how many of them were.
    Write(usize, Bytes, usize),
    /// Behind the end there, so many zeros that were to be added.
    Grow(usize, usize),
    Sync(Bytes),
    /// A sync that failed: no later one brings to the disk what was written before it.
    Lost(Bytes),
}

/// Adds a change to those that a file has had.
fn note(changes: &mut Vec<Change>, change: Change) -> Result<(), Memory>
    ensures ok { OnOk result (changes.new.items ≡ changes.old.items ++ change ∷ []) }
    ensures err { OnErr result (changes.new.items ≡ changes.old.items) }
{
    changes.push(change)?;
    Ok(())
}

/// Writes bytes over those of a file, and past its end.
fn overwrite(file: &mut Vec<u8>, at: usize, bytes: &[u8]) -> Result<(), Memory>
    requires { at ≤ length file.old.items }
    ensures ok { OnOk result (file.new.items ≡ take at file.old.items ++ bytes.now
        ++ drop (at + length bytes.now) file.old.items) }
    ensures err { OnErr result (length file.new.items ≡ length file.old.items) }
{
    let (over, past) = bytes.split_at(bytes.len().min(file.len() - at));
    file[at..at + over.len()].copy_from_slice(over);
    file.extend_from_slice(past)?;
    Ok(())
}

/// A file with all its changes.
#[derive(Drop)]
struct Kept {
    bytes: Vec<u8>,
    changes: Vec<Change>,
}

impl Kept {
    /// Writes some of the bytes that were to be written. Without memory for them all, fewer are written.
    fn write(&mut self, heap: Heap, at: usize, bytes: &[u8], written: &[u8]) -> Result<(), Memory>
        requires { at ≤ length self.old.bytes.items }
        ensures noted { MayNote (changes.Write at bytes.now (length written.now))
            self.old.changes.items self.new.changes.items }
        ensures ok { OnOk result (self.new.changes.items ≡ self.old.changes.items
            ++ changes.Write at bytes.now (length written.now) ∷ []) }
        ensures bytes { OnOk result (self.new.bytes.items ≡ take at self.old.bytes.items
            ++ written.now ++ drop (at + length written.now) self.old.bytes.items) }
        ensures err { OnErr result
            (length self.new.bytes.items ≡ length self.old.bytes.items) }
    {
        let copy = Bytes::copy_of(heap, bytes)?;
        note(&mut self.changes, Change::Write(at, copy, written.len()))?;
        overwrite(&mut self.bytes, at, written)
    }

    /// Adds some of the zeros that were to be added. Without memory for them, none is added.
    fn grow(&mut self, count: usize, added: usize) -> Result<(), Memory>
        requires { length self.old.bytes.items + added < 2 ^ 64 }
        ensures noted { MayNote (changes.Grow (length self.old.bytes.items) count)
            self.old.changes.items self.new.changes.items }
        ensures ok { OnOk result (self.new.changes.items ≡ self.old.changes.items
            ++ changes.Grow (length self.old.bytes.items) count ∷ []) }
        ensures bytes { OnOk result (self.new.bytes.items
            ≡ self.old.bytes.items ++ replicate added 0) }
        ensures err { OnErr result
            (length self.new.bytes.items ≡ length self.old.bytes.items) }
    {
        let from = self.bytes.len();
        note(&mut self.changes, Change::Grow(from, count))?;
        let len = from + added;
        self.bytes.resize(len, 0)?;
        Ok(())
    }

    fn sync(&mut self, heap: Heap) -> Result<(), Memory>
        ensures ok { OnOk result (self.new.changes.items
            ≡ self.old.changes.items ++ changes.Sync self.old.bytes.items ∷ []) }
        ensures bytes { self.new.bytes.items ≡ self.old.bytes.items }
        ensures err { OnErr result (self.new.changes.items ≡ self.old.changes.items) }
    {
        let copy = Bytes::copy_of(heap, self.bytes.as_slice())?;
        note(&mut self.changes, Change::Sync(copy))
    }

    /// Notes that a sync failed, where such a one loses what was written. Without memory it isn't noted.
    fn lose(&mut self, heap: Heap, loses: bool)
        ensures noted { MayNote (changes.Lost self.old.bytes.items) self.old.changes.items
            self.new.changes.items }
        ensures bytes { self.new.bytes.items ≡ self.old.bytes.items }
    {
        if !loses {
            return;
        }
        let Ok(copy) = Bytes::copy_of(heap, self.bytes.as_slice()) else {
            return;
        };
        let _ = note(&mut self.changes, Change::Lost(copy));
    }
}

/// A file in memory. Its contracts name each file that a crash may leave, so it keeps all its changes. It grows to so many bytes at
/// most. One of its calls can be told to fail; a write that fails so has written half of its bytes, and a growth added half of them.
#[derive(Drop)]
pub struct MemoryDevice {
    heap: Heap,
    first: Bytes,
    file: Kept,
    most: usize,
    left: u64,
    loses: bool,
    failed: bool,
}

impl MemoryDevice {
    /// A file of these bytes, on the disk. So many calls go well, and the next one fails. It isn't grown past `most` bytes.
    pub fn new(heap: Heap, first: Bytes, calls: u64, most: usize) -> Result<MemoryDevice, Memory>
        ensures bytes { IfOk result (λ m. memory_bytes m ≡ first) }
        ensures durable { IfOk result (λ m. (c : Seq ℕ) → memory_leaves m c → c ≡ first) }
        ensures fresh { IfOk result (λ m. IsFresh (memory_stale m)) }
        ensures usable { IfOk result (λ m. has_failed m ≡ false) }
    {
        let bytes = Vec::from_slice(heap, first.get())?;
        Ok(MemoryDevice {
            heap,
            first,
            file: Kept {
                bytes,
                changes: Vec::new(heap),
            },
            most,
            left: calls,
            loses: false,
            failed: false,
        })
    }

    /// From now on a sync that fails loses what was written since the one before: the file has it, and no later sync brings it to the
    /// disk before it is written again.
    pub fn lose_at_failed_syncs(&mut self)
        ensures bytes { memory_bytes self.new ≡ memory_bytes self.old }
        ensures leaves { (c : Seq ℕ) → memory_leaves self.new c → memory_leaves self.old c }
        ensures stale { (i : ℕ) → memory_stale self.new i → memory_stale self.old i }
        ensures usable { has_failed self.new ≡ has_failed self.old }
    {
        self.loses = true;
    }

    /// The file as another process opens it: so many calls go well again.
    pub fn restart(&mut self, calls: u64)
        ensures bytes { memory_bytes self.new ≡ memory_bytes self.old }
        ensures leaves { (c : Seq ℕ) → memory_leaves self.new c → memory_leaves self.old c }
        ensures stale { (i : ℕ) → memory_stale self.new i → memory_stale self.old i }
        ensures usable { has_failed self.new ≡ false }
    {
        self.left = calls;
        self.failed = false;
    }

    /// What it holds.
    pub fn bytes(&self) -> &[u8]
        ensures { result.now ≡ memory_bytes self.now }
    {
        self.file.bytes.as_slice()
    }
}

/// Whether a call goes well: counts it.
fn goes_well(left: &mut u64) -> bool {
    match left.checked_sub(1) {
        Some(less) => {
            *left = less;
            true
        }
        None => false,
    }
}

impl Device for MemoryDevice {
    ghost use Rattle.std.specs.Prelude.{length};
    ghost use Rattle.doc_server_journal.specs.Memories.{memory_seen, memory_leaves, memory_stale, has_failed, LeftSince, counts, only};

    ghost seen = { memory_seen };

    ghost may_leave = { memory_leaves };

    ghost moment = { λ m. length m.file.changes.items };

    ghost left_since = { λ m t c. LeftSince m.first m.file.changes.items t c };

    ghost stale = { memory_stale };

    ghost failed = { has_failed };

    ghost counts_now = { λ m t c le now. counts m.first m.file.changes.items t c le now };

    ghost stale_within = { λ _ _ stale. stale.1 };

    ghost only_now = { λ m c left. only m.first m.file.changes.items c left };

    fn read_whole(&mut self, heap: Heap, most: usize) -> Result<Bytes, LoadError> {
        if !goes_well(&mut self.left) {
            self.failed = true;
            return Err(LoadError::Failed);
        }
        if self.file.bytes.len() > most {
            return Err(LoadError::Long);
        }
        Ok(Bytes::copy_of(heap, self.file.bytes.as_slice())?)
    }

    fn write_at(&mut self, at: usize, bytes: &[u8]) -> Result<(), DeviceFault> {
        let well = goes_well(&mut self.left);
        let written = if well { bytes.len() } else { bytes.len() / 2 };
        let kept = self.file.write(self.heap, at, bytes, &bytes[..written]);
        self.failed = !well || kept.is_err();
        if self.failed {
            return Err(DeviceFault);
        }
        Ok(())
    }

    fn grow(&mut self, count: usize) -> Result<usize, DeviceFault> {
        let well = goes_well(&mut self.left);
        let more = count.min(self.most.saturating_sub(self.file.bytes.len()));
        let added = if well { more } else { more / 2 };
        let kept = self.file.grow(more, added);
        self.failed = !well || kept.is_err();
        if self.failed {
            return Err(DeviceFault);
        }
        Ok(added)
    }

    fn sync(&mut self) -> Result<(), DeviceFault> {
        if !goes_well(&mut self.left) {
            self.failed = true;
            self.file.lose(self.heap, self.loses);
            return Err(DeviceFault);
        }
        match self.file.sync(self.heap) {
            Ok(()) => Ok(()),
            Err(_) => {
                self.failed = true;
                Err(DeviceFault)
            }
        }
    }
}
