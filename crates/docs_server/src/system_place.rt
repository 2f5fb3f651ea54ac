//! The file of a journal's name in the system, and one beside it. Of their bytes nothing is known.
//!
//! What is trusted for a compaction's promises to hold of such a place: that each call here asks the system for what the trait says, and
//! that a rename is whole or not made at all, and on the disk once their folder is synced.

use doc_page_parts::heap::Heap;
use doc_server_compacting::place::Place;
use doc_server_journal::file_device::FileDevice;
use doc_server_journal::file_fault::FileFault;
use doc_server_journal::journal::Journal;
use doc_server_journal::names::Replacement;
use std::fs::{File, remove_file};
use std::rt::Files;

/// The file of a name, or the one that it leads to where it is a link, and one beside it that is to take its place.
#[derive(Drop)]
pub struct SystemPlace<'a, P> {
    rt: &'a P,
    heap: Heap,
    name: &'a str,
    /// The names of both, once one stands beside.
    names: Option<Replacement>,
}

impl<'a, P> SystemPlace<'a, P> {
    /// The place of a name.
    pub fn of(rt: &'a P, heap: Heap, name: &'a str) -> SystemPlace<'a, P> {
        SystemPlace {
            rt,
            heap,
            name,
            names: None,
        }
    }
}

impl<P: AllocGlobal + Files<File = File>> Place for SystemPlace<'_, P> {
    ghost use Rattle.std.specs.Prelude.{None};

    type Device = FileDevice;

    ghost named = { λ _. None };

    fn open(&mut self) -> Result<FileDevice, FileFault> {
        FileDevice::open(self.rt, self.name)
    }

    fn beside(&mut self, old: &FileDevice) -> Result<FileDevice, FileFault> {
        let names = Replacement::of(self.rt, self.heap, self.name)?;
        let device = old.make_like(self.rt, names.new_name());
        self.names = Some(names);
        device
    }

    fn take_name(&mut self, _beside: &Journal<FileDevice>) -> Result<(), FileFault> {
        match &self.names {
            Some(names) => names.take_name(self.rt),
            None => Err(FileFault::NotReplaced),
        }
    }

    fn give_up(&mut self) {
        if let Some(names) = &self.names {
            let _ = remove_file(self.rt, names.new_name());
        }
    }
}
