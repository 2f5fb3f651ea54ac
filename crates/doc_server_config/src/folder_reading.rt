//! A folder that is read a part at a time.

ghost use Rattle.std.specs.Prelude.{◌≡◌, [], IfOk, OnOk};
ghost use Rattle.std.specs.List.{All};
ghost use Rattle.doc_server_config.specs.FolderPages.{IsFileOf};

use crate::folder::Folder;
use crate::folder_pages::{FolderFile, add_file};
use crate::seen::Seen;
use crate::taken::Taken;
use crate::walk::{Walk, check_folders};
use doc_page_parts::failure::Memory;
use doc_page_parts::heap::{Heap, Vec};
use doc_page_parts::list::List;
use doc_server_streams::fault::Fault;
use std::alloc::AllocGlobal;
use std::rt::Files;

/// How many entries of folders are looked at in a part, or how many files are read.
const COUNT: usize = 256;

/// With which of its bytes a part ends.
const BYTES: u64 = 1_048_576;

/// A folder that is read a part at a time: first all its files are found, and then they are read, in the order of their names.
#[derive(Drop)]
pub struct FolderReading<R: Files> {
    /// The walk through the folder, until all files are found.
    walk: Option<Walk<R>>,
    /// The files, once they are, as the walk has found them.
    seen: Vec<Seen>,
    /// How many of them were read, and what they are.
    count: usize,
    files: Vec<FolderFile>,
}

impl<R: AllocGlobal + Files + Clone + Drop> FolderReading<R> {
    /// A folder of which nothing is read.
    pub fn begin(heap: Heap) -> Result<FolderReading<R>, Memory>
        ensures { IfOk result (λ reading. reading.files.items ≡ []) }
    {
        Ok(FolderReading {
            walk: Some(Walk::begin(heap)?),
            seen: Vec::new(heap),
            count: 0,
            files: Vec::new(heap),
        })
    }

    /// Reads on in the folder, each time the same one: 256 entries or files, or about a mebibyte. True: all is read. `CannotRead` names a
    /// folder that can't be read, or an excepted one that isn't there. What its pages take is noted, where nothing else is taken meanwhile.
    pub fn part(
        &mut self,
        rt: &R,
        heap: Heap,
        folder: &Folder,
        taken: &mut Taken,
    ) -> Result<bool, Fault>
        ensures { All (IsFileOf folder.now) self.old.files.items
            → OnOk result (All (IsFileOf folder.now) self.new.files.items) }
    {
        if self.walk.is_none() {
            return Ok(self.read(rt, heap, folder, taken)?);
        }
        self.walk_on(rt, heap, folder, taken)?;
        Ok(false)
    }

    /// Reads on until all is read.
    pub fn read_all(
        &mut self,
        rt: &R,
        heap: Heap,
        folder: &Folder,
        taken: &mut Taken,
    ) -> Result<(), Fault>
        ensures { All (IsFileOf folder.now) self.old.files.items
            → OnOk result (All (IsFileOf folder.now) self.new.files.items) }
    {
        'parts: for _ in 0..u64::MAX {
            if self.part(rt, heap, folder, taken)? {
                return Ok(());
            }
        }
        Ok(())
    }

    /// What was read, and all files as the walk has found them.
    pub fn end(self) -> (List<FolderFile>, Vec<Seen>)
        ensures { result.0 ≡ self.files.items }
    {
        let FolderReading {
            walk: _,
            seen,
            count: _,
            files,
        } = self;
        (List::new(files), seen)
    }

    /// Looks for more of its files.
    fn walk_on(
        &mut self,
        rt: &R,
        heap: Heap,
        folder: &Folder,
        taken: &mut Taken,
    ) -> Result<(), Fault>
        ensures { self.new.files ≡ self.old.files }
    {
        let Some(walk) = &mut self.walk else {
            return Ok(());
        };
        if walk.part(rt, heap, folder, COUNT)? {
            self.end_walk()?;
            check_folders(rt, heap, folder.file.get(), folder.except.get())?;
            taken.begin_folder();
        }
        Ok(())
    }

    /// All its files are found.
    fn end_walk(&mut self) -> Result<(), Memory>
        ensures { self.new.files ≡ self.old.files }
    {
        if let Some(walk) = self.walk.take() {
            self.seen = walk.into_files()?;
        }
        Ok(())
    }

    /// Reads more of them. True: none is left.
    fn read(
        &mut self,
        rt: &R,
        heap: Heap,
        folder: &Folder,
        taken: &mut Taken,
    ) -> Result<bool, Memory>
        ensures { All (IsFileOf folder.now) self.old.files.items
            → OnOk result (All (IsFileOf folder.now) self.new.files.items) }
    {
        let mut bytes: u64 = 0;
        'files: for _ in 0..COUNT {
            let Some(seen) = self.seen.get(self.count) else {
                return Ok(true);
            };
            add_file(rt, heap, folder, seen.name.as_str(), taken, &mut self.files)?;
            bytes = bytes.saturating_add(seen.len());
            self.count = self.count.saturating_add(1);
            if bytes >= BYTES {
                return Ok(false);
            }
        }
        Ok(false)
    }
}
