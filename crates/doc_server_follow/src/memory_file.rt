//! A file in memory, for tests.

ghost use Rattle.std.specs.Prelude.{◌≡◌, [], List as Seq, ℕ};
ghost use Rattle.doc_server_follow.specs.MemoryFiles.{memory_bytes};

use crate::growing::Growing;
use crate::growing_fault::GrowingFault;
use doc_page_parts::bytes::Bytes;
use doc_page_parts::heap::{Heap, Vec};

/// A file in memory. What another process would write is set.
#[derive(Drop)]
pub struct MemoryFile {
    bytes: Bytes,
}

impl MemoryFile {
    /// A file without bytes.
    pub fn new(heap: Heap) -> MemoryFile
        ensures { memory_bytes result ≡ [] }
    {
        MemoryFile::of(Bytes::new(Vec::new(heap)))
    }

    /// A file of these bytes.
    pub fn of(bytes: Bytes) -> MemoryFile
        ensures { memory_bytes result ≡ bytes }
    {
        MemoryFile { bytes }
    }

    /// Another process has written it so.
    pub fn set(&mut self, bytes: Bytes)
        ensures { memory_bytes self.new ≡ bytes }
    {
        self.bytes = bytes;
    }
}

impl Growing for MemoryFile {
    ghost use Rattle.doc_server_follow.specs.MemoryFiles.{memory_seen};

    ghost seen = { memory_seen };

    fn read_at(&mut self, heap: Heap, at: usize, most: usize) -> Result<Bytes, GrowingFault> {
        let bytes = self.bytes.get();
        let behind = &bytes[at.min(bytes.len())..];
        Ok(Bytes::copy_of(heap, &behind[..most.min(behind.len())])?)
    }
}
