//! A file of the system as a device. Of its bytes nothing is known, and no outcome of a crash is named.
//!
//! What is trusted for a journal's promises to hold of such a file: that each call here asks the system for what the trait says; that
//! a sync that went well has put the file on the disk; that a write changes no byte outside its range, and leaves each byte as it was
//! or as it was to be; that zeros which were added and synced keep their room, so that a write over them needs none; that nobody else
//! writes the file, which its lock asks of those who ask for the lock too.

ghost use Rattle.std.specs.Prelude.{◌≡◌, ◌≤◌, false, true, length, IfOk};
ghost use Rattle.doc_server_journal.specs.FileDevices.{has_failed};

use crate::device::Device;
use crate::fault::{DeviceFault, LoadError};
use crate::file_fault::FileFault;
use crate::names::sync_folder;
use doc_page_parts::bytes::Bytes;
use doc_page_parts::heap::{Heap, Vec};
use std::fs::{File, OpenOptions, metadata, remove_file};
use std::io::{self, ErrorKind};
use std::os::fd::AsFd;
use std::os::unix::fs::{FileExt, MetadataExt, OpenOptionsExt, fchown};
use std::rt::Files;

/// How often a file is opened again whose name another got meanwhile.
const TRIES: u32 = 8;

/// The rights of a file that is made: its pages are for those who may read its owner's files.
const OWNER_ALONE: u32 = 0o600;

/// How many zeros are written at a time.
const ZEROS_LEN: usize = 65_536;

/// An open file, locked while the device is there.
#[derive(Drop)]
pub struct FileDevice {
    file: File,
    failed: bool,
}

impl FileDevice {
    /// Opens the file of this name, and takes its lock. Its folder is synced, so that a crash leaves the name. The lock of a file that
    /// lost its name to another, as by a compaction, isn't kept: then that other file is opened.
    pub fn open<R: Files<File = File>>(rt: &R, name: &str) -> Result<FileDevice, FileFault>
        ensures { IfOk result (λ device. has_failed device ≡ false) }
    {
        for _ in 0..TRIES {
            let device = lock(open_file(rt, name)?)?;
            if device.has_name(rt, name)? {
                sync_folder(rt, name)?;
                return Ok(device);
            }
        }
        Err(FileFault::InUse)
    }

    /// Makes an empty file of this name for its owner alone, and takes its lock. It is one that a crash left while it was made, if there
    /// is such a file.
    pub fn make<R: Files<File = File>>(rt: &R, name: &str) -> Result<FileDevice, FileFault>
        ensures { IfOk result (λ device. has_failed device ≡ false) }
    {
        let file = OpenOptions::new()
            .read(true)
            .write(true)
            .create(true)
            .mode(OWNER_ALONE)
            .open(rt, name)?;
        let device = lock(file)?;
        if !device.has_name(rt, name)? {
            return Err(FileFault::InUse);
        }
        device.file.set_len(0)?;
        Ok(device)
    }

    /// Makes a file of this name with the owner and the rights of this one, and takes its lock. A file that has the name goes.
    pub fn make_like<R: Files<File = File>>(
        &self,
        rt: &R,
        name: &str,
    ) -> Result<FileDevice, FileFault>
        ensures { IfOk result (λ device. has_failed device ≡ false) }
    {
        let _ = remove_file(rt, name);
        let file = OpenOptions::new()
            .read(true)
            .write(true)
            .create_new(true)
            .mode(OWNER_ALONE)
            .open(rt, name)?;
        file.try_lock()?;
        let metadata = self.file.metadata()?;
        fchown(file.as_fd(), Some(metadata.uid()), Some(metadata.gid()))?;
        file.set_permissions(metadata.permissions())?;
        Ok(FileDevice {
            file,
            failed: false,
        })
    }

    /// Whether the file of this name is this one.
    fn has_name<R: Files<File = File>>(&self, rt: &R, name: &str) -> Result<bool, FileFault> {
        let Ok(named) = metadata(rt, name) else {
            return Ok(false);
        };
        let open = self.file.metadata()?;
        Ok(open.dev() == named.dev() && open.ino() == named.ino())
    }
}

/// Opens the file of a name.
fn open_file<R: Files<File = File>>(rt: &R, name: &str) -> Result<File, FileFault> {
    match OpenOptions::new().read(true).write(true).open(rt, name) {
        Ok(file) => Ok(file),
        Err(e) if e.kind() == ErrorKind::NotFound => Err(FileFault::Missing),
        Err(_) => Err(FileFault::NotOpened),
    }
}

/// Takes the lock of a regular file.
fn lock(file: File) -> Result<FileDevice, FileFault>
    ensures { IfOk result (λ device. has_failed device ≡ false) }
{
    if !file.metadata()?.is_file() {
        return Err(FileFault::NotOpened);
    }
    file.try_lock()?;
    Ok(FileDevice {
        file,
        failed: false,
    })
}

/// All bytes of a file, `most` at most.
fn whole(heap: Heap, file: &File, most: usize) -> Result<Bytes, LoadError>
    ensures { IfOk result (λ bytes. length bytes ≤ most) }
{
    let Ok(metadata) = file.metadata() else {
        return Err(LoadError::Failed);
    };
    let Ok(len) = usize::try_from(metadata.len()) else {
        return Err(LoadError::Long);
    };
    if len > most {
        return Err(LoadError::Long);
    }
    let mut bytes = Vec::new(heap);
    if bytes.resize(len, 0).is_err() {
        return Err(LoadError::Memory);
    }
    if file.read_exact_at(bytes.as_mut_slice(), 0).is_err() {
        return Err(LoadError::Failed);
    }
    Ok(Bytes::new(bytes))
}

/// Adds so many zeros behind the end of a file, or fewer where the system has no room for more, and answers how many.
fn add_zeros(file: &File, count: usize) -> io::Result<usize>
    ensures { IfOk result (λ added. added ≤ count) }
{
    let len = file.metadata()?.len();
    match write_zeros(file, len, count) {
        Ok(()) => Ok(count),
        Err(e) if is_want_of_room(&e) => {
            let added = file.metadata()?.len().saturating_sub(len);
            Ok(count.min(usize::try_from(added).unwrap_or(count)))
        }
        Err(e) => Err(e),
    }
}

/// Writes so many zeros from there on.
fn write_zeros(file: &File, at: u64, count: usize) -> io::Result<()> {
    let zeros = [0; ZEROS_LEN];
    let mut at = at;
    let mut left = count;
    'left: while left > 0 {
        let part = left.min(ZEROS_LEN);
        file.write_all_at(&zeros[..part], at)?;
        at = at.saturating_add(part as u64);
        left -= part;
    }
    Ok(())
}

/// Whether the system has no room for what was written.
fn is_want_of_room(e: &io::Error) -> bool {
    matches!(
        e.kind(),
        ErrorKind::StorageFull | ErrorKind::QuotaExceeded | ErrorKind::FileTooLarge
    )
}

impl Device for FileDevice {
    ghost use Rattle.std.specs.Prelude.{None};
    ghost use Rattle.doc_server_journal.specs.FileDevices.{has_failed};

    ghost seen = { λ _. None };

    ghost may_leave = { λ _ _. ⊥ };

    ghost moment = { λ _. 0 };

    ghost left_since = { λ _ _ _. ⊥ };

    ghost stale = { λ _ _. ⊥ };

    ghost failed = { has_failed };

    ghost counts_now = { λ _ _ _ _ never. never };

    ghost stale_within = { λ _ _ never. never };

    ghost only_now = { λ _ _ never. never };

    fn read_whole(&mut self, heap: Heap, most: usize) -> Result<Bytes, LoadError> {
        let result = whole(heap, &self.file, most);
        self.failed = matches!(result, Err(LoadError::Failed));
        result
    }

    fn write_at(&mut self, at: usize, bytes: &[u8]) -> Result<(), DeviceFault> {
        match self.file.write_all_at(bytes, at as u64) {
            Ok(()) => Ok(()),
            Err(_) => Err(self.fault()),
        }
    }

    fn grow(&mut self, count: usize) -> Result<usize, DeviceFault> {
        match add_zeros(&self.file, count) {
            Ok(added) => Ok(added),
            Err(_) => Err(self.fault()),
        }
    }

    fn sync(&mut self) -> Result<(), DeviceFault> {
        match self.file.sync_all() {
            Ok(()) => Ok(()),
            Err(_) => Err(self.fault()),
        }
    }
}

impl FileDevice {
    /// Notes that a call has failed.
    fn fault(&mut self) -> DeviceFault
        ensures { has_failed self.new ≡ true }
    {
        self.failed = true;
        DeviceFault
    }
}
