//! A place in memory, for tests.

ghost use Rattle.std.specs.Prelude.{◌≡◌, false, IfOk};
ghost use Rattle.doc_server_journal.specs.Memories.{has_failed, memory_bytes};
ghost use Rattle.doc_server_compacting.specs.MemoryPlaces.{named_bytes, stands_beside};

use crate::place::Place;
use doc_page_parts::bytes::Bytes;
use doc_page_parts::failure::Memory;
use doc_page_parts::heap::Heap;
use doc_server_journal::file_fault::FileFault;
use doc_server_journal::journal::Journal;
use doc_server_journal::memory::MemoryDevice;

/// A name and its file in memory. So many of its calls go well, and the next ones fail. A name is taken by two of them, a rename and the
/// sync of the folder: where the second fails the file beside has the name.
#[derive(Drop)]
pub struct MemoryPlace {
    heap: Heap,
    bytes: Bytes,
    left: u64,
    device_calls: u64,
    most: usize,
    has_beside: bool,
}

impl MemoryPlace {
    /// A file of these bytes. So many calls go well, and so many of each device that is opened, which isn't grown past `most` bytes.
    pub fn new(heap: Heap, bytes: Bytes, calls: u64, device_calls: u64, most: usize) -> MemoryPlace
        ensures { named_bytes result ≡ bytes }
    {
        MemoryPlace {
            heap,
            bytes,
            left: calls,
            device_calls,
            most,
            has_beside: false,
        }
    }

    /// What the file of the name holds.
    pub fn bytes(&self) -> &[u8]
        ensures { result.now ≡ named_bytes self.now }
    {
        self.bytes.get()
    }

    /// Whether a file stands beside.
    pub fn has_beside(&self) -> bool
        ensures { result ≡ stands_beside self.now }
    {
        self.has_beside
    }

    /// Counts a call, and answers whether it goes well.
    fn goes_well(&mut self) -> bool
        ensures { named_bytes self.new ≡ named_bytes self.old }
    {
        match self.left.checked_sub(1) {
            Some(less) => {
                self.left = less;
                true
            }
            None => false,
        }
    }

    /// A device of these bytes.
    fn device_of(&self, bytes: &[u8]) -> Result<MemoryDevice, Memory>
        ensures usable { IfOk result (λ device. has_failed device ≡ false) }
        ensures bytes { IfOk result (λ device. memory_bytes device ≡ bytes.now) }
    {
        let copy = Bytes::copy_of(self.heap, bytes)?;
        MemoryDevice::new(self.heap, copy, self.device_calls, self.most)
    }
}

impl Place for MemoryPlace {
    ghost use Rattle.std.specs.Prelude.{Some};
    ghost use Rattle.doc_server_compacting.specs.MemoryPlaces.{named_bytes};

    type Device = MemoryDevice;

    ghost named = { λ place. Some (named_bytes place) };

    fn open(&mut self) -> Result<MemoryDevice, FileFault> {
        if !self.goes_well() {
            return Err(FileFault::NotOpened);
        }
        match self.device_of(self.bytes.get()) {
            Ok(device) => Ok(device),
            Err(Memory) => Err(FileFault::Memory),
        }
    }

    fn beside(&mut self, _old: &MemoryDevice) -> Result<MemoryDevice, FileFault> {
        if !self.goes_well() {
            return Err(FileFault::NotOpened);
        }
        match self.device_of(&[]) {
            Ok(device) => {
                self.has_beside = true;
                Ok(device)
            }
            Err(Memory) => Err(FileFault::Memory),
        }
    }

    fn take_name(&mut self, beside: &Journal<MemoryDevice>) -> Result<(), FileFault> {
        if !self.goes_well() {
            return Err(FileFault::NotReplaced);
        }
        let Ok(bytes) = Bytes::copy_of(self.heap, beside.device.bytes()) else {
            return Err(FileFault::Memory);
        };
        self.bytes = bytes;
        self.has_beside = false;
        if !self.goes_well() {
            return Err(FileFault::NotReplaced);
        }
        Ok(())
    }

    fn give_up(&mut self) {
        self.has_beside = false;
    }
}
