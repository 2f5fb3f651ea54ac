//! A file of the system that another server writes, read as it grows. Of its bytes nothing is known.

ghost use Rattle.std.specs.Prelude.{◌≤◌, length, IfOk};

use crate::named_device::place_of;
use doc_page_parts::bytes::Bytes;
use doc_page_parts::heap::{Heap, Vec};
use doc_server_follow::growing::Growing;
use doc_server_follow::growing_fault::GrowingFault;
use doc_server_journal_records::header::HEADER_LEN;
use doc_server_journal_records::record::CLOSED_GATE;
use std::fs::{File, metadata};
use std::os::unix::fs::FileExt;
use std::rt::Files;

/// An open file, of which nothing is changed.
#[derive(Drop)]
pub struct GrowingFile {
    file: File,
    /// The numbers of the file's device and of the file on it.
    place: (u64, u64),
}

impl GrowingFile {
    /// Opens the regular file of this name.
    pub fn open<R: Files<File = File>>(rt: &R, name: &str) -> Result<GrowingFile, GrowingFault> {
        // a pipe is never opened: that waits for somebody who writes to it
        let is_regular = match metadata(rt, name) {
            Ok(found) => found.is_file(),
            Err(_) => false,
        };
        if !is_regular {
            return Err(GrowingFault::Failed);
        }
        let Ok(file) = File::open(rt, name) else {
            return Err(GrowingFault::Failed);
        };
        let Ok(found) = file.metadata() else {
            return Err(GrowingFault::Failed);
        };
        let place = place_of(&found);
        Ok(GrowingFile { file, place })
    }

    /// Whether the name leads to another file than this one.
    pub fn is_replaced<R: Files<File = File>>(&self, rt: &R, name: &str) -> bool {
        match metadata(rt, name) {
            Ok(found) => place_of(&found) != self.place,
            Err(_) => false,
        }
    }

    /// All its bytes.
    pub fn whole(&self, heap: Heap) -> Result<Bytes, GrowingFault> {
        part(heap, &self.file, 0, usize::MAX)
    }

    /// The header of the journal that it is, and behind that a closed gate: the journal as it was before its first record.
    pub fn front(&self, heap: Heap) -> Result<Bytes, GrowingFault> {
        let mut front = part(heap, &self.file, 0, HEADER_LEN)?;
        match front.extend(&[CLOSED_GATE]) {
            Ok(()) => Ok(front),
            Err(_) => Err(GrowingFault::Memory),
        }
    }
}

/// A file's bytes from that place on, at most so many.
fn part(heap: Heap, file: &File, at: usize, most: usize) -> Result<Bytes, GrowingFault>
    ensures { IfOk result (λ bytes. length bytes ≤ most) }
{
    let Ok(found) = file.metadata() else {
        return Err(GrowingFault::Failed);
    };
    let Ok(len) = usize::try_from(found.len()) else {
        return Err(GrowingFault::Failed);
    };
    let mut bytes = Vec::new(heap);
    if bytes.resize(most.min(len.saturating_sub(at)), 0).is_err() {
        return Err(GrowingFault::Memory);
    }
    if file.read_exact_at(bytes.as_mut_slice(), at as u64).is_err() {
        return Err(GrowingFault::Failed);
    }
    Ok(Bytes::new(bytes))
}

impl Growing for GrowingFile {
    ghost use Rattle.std.specs.Prelude.{None};

    ghost seen = { λ _. None };

    fn read_at(&mut self, heap: Heap, at: usize, most: usize) -> Result<Bytes, GrowingFault> {
        part(heap, &self.file, at, most)
    }
}
