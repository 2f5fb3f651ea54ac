//! The file of a journal that a server has open, looked for by its name before each write: edits in a file without one are lost.

ghost use Rattle.std.specs.Prelude.{◌≡◌, false, IfOk};
ghost use Rattle.docs_server.specs.NamedDevices.{has_failed};

use doc_page_parts::bytes::Bytes;
use doc_page_parts::heap::{Heap, String};
use doc_server_journal::device::Device;
use doc_server_journal::fault::{DeviceFault, LoadError};
use doc_server_journal::file_device::FileDevice;
use doc_server_journal::file_fault::FileFault;
use doc_server_serving::named_file::NamedFile;
use std::fs::{File, Metadata, metadata};
use std::os::unix::fs::MetadataExt;
use std::rt::Files;

/// A file as a device, in which nothing is written once its name leads elsewhere or nowhere, or it was cut. Between a look and the write
/// behind it is a moment in which that may still happen.
#[derive(Drop)]
pub struct NamedDevice<'a, P> {
    rt: &'a P,
    name: String,
    /// The numbers of the file's device and of the file on it.
    place: (u64, u64),
    /// How many bytes it has at least.
    len: u64,
    device: FileDevice,
    is_moved: bool,
}

impl<'a, P: Files<File = File>> NamedDevice<'a, P> {
    /// Opens the file of this name, as [`FileDevice::open`] does.
    pub fn open(rt: &'a P, heap: Heap, name: &str) -> Result<NamedDevice<'a, P>, FileFault>
        ensures { IfOk result (λ device. has_failed device ≡ false) }
    {
        let device = FileDevice::open(rt, name)?;
        let found = metadata(rt, name)?;
        Ok(NamedDevice {
            rt,
            name: String::from_str(heap, name)?,
            place: place_of(&found),
            len: found.len(),
            device,
            is_moved: false,
        })
    }
}

impl<P: Eprint + Files<File = File>> NamedFile for NamedDevice<'_, P> {
    fn is_found(&self) -> bool {
        match metadata(self.rt, self.name.as_str()) {
            Ok(found) => place_of(&found) == self.place && found.len() >= self.len,
            Err(_) => false,
        }
    }

    fn tell_room(&self, has_room: bool) {
        let _ = if has_room {
            eprintln!(self.rt; "docs_server: journal has room again")
        } else {
            eprintln!(self.rt; "docs_server: journal is full: puts are refused")
        };
    }
}

/// Where a file stands, as numbers that no other file has while it is open.
pub fn place_of(found: &Metadata) -> (u64, u64) {
    (found.dev(), found.ino())
}

impl<P: Eprint + Files<File = File>> Device for NamedDevice<'_, P> {
    ghost use Rattle.std.specs.Prelude.{None};
    ghost use Rattle.docs_server.specs.NamedDevices.{has_failed};

    ghost seen = { λ _. None };

    ghost may_leave = { λ _ _. ⊥ };

    ghost moment = { λ _. 0 };

    ghost left_since = { λ _ _ _. ⊥ };

    ghost failed = { has_failed };

    ghost stale = { λ _ _. ⊥ };

    ghost stale_within = { λ _ _ never. never };

    ghost counts_now = { λ _ _ _ _ never. never };

    ghost only_now = { λ _ _ never. never };

    fn read_whole(&mut self, heap: Heap, most: usize) -> Result<Bytes, LoadError> {
        self.device.read_whole(heap, most)
    }

    fn write_at(&mut self, at: usize, bytes: &[u8]) -> Result<(), DeviceFault> {
        if !self.is_found() {
            self.is_moved = true;
            return Err(DeviceFault);
        }
        self.device.write_at(at, bytes)
    }

    fn grow(&mut self, count: usize) -> Result<usize, DeviceFault> {
        if !self.is_found() {
            self.is_moved = true;
            return Err(DeviceFault);
        }
        let added = self.device.grow(count)?;
        self.len = self.len.saturating_add(added as u64);
        Ok(added)
    }

    fn sync(&mut self) -> Result<(), DeviceFault> {
        self.device.sync()
    }
}
