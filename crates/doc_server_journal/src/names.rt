//! The name of a file, and how another file takes it.

use crate::file_fault::FileFault;
use doc_page_parts::heap::{Heap, String};
use std::alloc::AllocGlobal;
use std::fs::{File, canonicalize, metadata, rename};
use std::rt::Files;

/// What is put behind the name of a file for that of the new one beside it.
const COMPACTING: &str = ".compacting";

/// The same for that of a first one.
const NEW: &str = ".new";

/// The name of a file, and of a new one beside it that is to take its name. What becomes of names no clause says.
#[derive(Drop)]
pub struct Replacement {
    name: String,
    new_name: String,
}

impl Replacement {
    /// For the file of this name, or the one that it leads to where it is a link.
    pub fn of<R: AllocGlobal + Files<File = File>>(
        rt: &R,
        heap: Heap,
        name: &str,
    ) -> Result<Replacement, FileFault> {
        let path = canonicalize(rt, name)?;
        let name = String::from_str(heap, path.as_str())?;
        let mut new_name = String::from_str(heap, path.as_str())?;
        new_name.push_str(COMPACTING)?;
        Ok(Replacement { name, new_name })
    }

    /// For a file of this name that isn't there.
    pub fn first_of(heap: Heap, name: &str) -> Result<Replacement, FileFault> {
        let mut new_name = String::from_str(heap, name)?;
        new_name.push_str(NEW)?;
        let name = String::from_str(heap, name)?;
        Ok(Replacement { name, new_name })
    }

    /// The name of the new file.
    pub fn new_name(&self) -> &str {
        self.new_name.as_str()
    }

    /// Gives a first file its name, where no other file got it meanwhile.
    pub fn take_first_name<R: Files<File = File>>(&self, rt: &R) -> Result<(), FileFault> {
        if metadata(rt, self.name.as_str()).is_ok() {
            return Err(FileFault::InUse);
        }
        self.take_name(rt)
    }

    /// Gives the new file the name of the old one, and syncs their folder.
    pub fn take_name<R: Files<File = File>>(&self, rt: &R) -> Result<(), FileFault> {
        let name = self.name.as_str();
        if rename(rt, self.new_name.as_str(), name).is_err() || sync_folder(rt, name).is_err() {
            return Err(FileFault::NotReplaced);
        }
        Ok(())
    }
}

/// Syncs the folder of a file, so that a crash leaves the names in it.
pub fn sync_folder<R: Files<File = File>>(rt: &R, name: &str) -> Result<(), FileFault> {
    File::open(rt, folder_of(name))?.sync_all()?;
    Ok(())
}

/// The folder of a name.
fn folder_of(name: &str) -> &str {
    match name.rsplit_once('/') {
        Some(("", _)) => "/",
        Some((folder, _)) => folder,
        None => ".",
    }
}
