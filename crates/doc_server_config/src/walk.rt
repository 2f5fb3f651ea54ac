//! The files of a folder and of those below it.

use crate::file_name;
use crate::folder::Folder;
use crate::growth::push;
use crate::media_names::is_medium;
use crate::seen::Seen;
use doc_page_parts::failure::Memory;
use doc_page_parts::heap::{Heap, String, Vec};
use doc_page_parts::text::Text;
use doc_server_streams::fault::Fault;
use doc_server_streams::whole_input::cannot_read;
use std::alloc::AllocGlobal;
use std::fs::{DirEntry, Metadata, ReadDir, read_dir, symlink_metadata};
use std::io::{self, ErrorKind};
use std::rt::Files;

/// What was found so far: folders that are still to be looked into, and files. Each is named from the folder that the walk began in.
#[derive(Drop)]
struct Found {
    folders: Vec<String>,
    files: Vec<Seen>,
}

/// The entries of a folder that are still to be looked at.
#[derive(Drop)]
struct Entries<R: Files> {
    /// The folder's name, from the folder that the walk began in, and the one by which it was opened.
    folder: String,
    name: String,
    left: ReadDir<R>,
}

/// A walk through a folder and those below it, some entries at a time. It finds the regular files whose name ends in `.md`, or has an
/// extension of the folder's media. Names that begin with `.` are passed over, and so are links and the folders that it excepts.
#[derive(Drop)]
pub struct Walk<R: Files> {
    found: Found,
    entries: Option<Entries<R>>,
}

impl<R: AllocGlobal + Files + Clone + Drop> Walk<R> {
    /// A walk that has found nothing yet.
    pub fn begin(heap: Heap) -> Result<Walk<R>, Memory> {
        let mut folders = Vec::new(heap);
        push(&mut folders, String::new(heap))?;
        Ok(Walk {
            found: Found {
                folders,
                files: Vec::new(heap),
            },
            entries: None,
        })
    }

    /// Looks at so many entries of the folder at most, and of those below it. True: none is left.
    pub fn part(
        &mut self,
        rt: &R,
        heap: Heap,
        folder: &Folder,
        most: usize,
    ) -> Result<bool, Fault> {
        for _ in 0..most {
            if !self.step(rt, heap, folder)? {
                return Ok(true);
            }
        }
        Ok(false)
    }

    /// Looks at an entry, or begins to look into another folder. False: nothing is left.
    fn step(&mut self, rt: &R, heap: Heap, folder: &Folder) -> Result<bool, Fault> {
        let Some(entries) = &mut self.entries else {
            return self.look_into_next(rt, heap, folder);
        };
        match entries.left.next() {
            Some(entry) => note_entry(heap, folder, entries, entry, &mut self.found)?,
            None => self.entries = None,
        }
        Ok(true)
    }

    /// Begins to look into one of the folders that were found. False: none is left.
    fn look_into_next(&mut self, rt: &R, heap: Heap, folder: &Folder) -> Result<bool, Fault> {
        let Some(next) = self.found.folders.pop() else {
            return Ok(false);
        };
        self.entries = Some(look_into(rt, heap, folder.file.get(), next)?);
        Ok(true)
    }

    /// The files that were found, in the order of the bytes of their names.
    pub fn into_files(self) -> Result<Vec<Seen>, Memory> {
        let Walk { found, entries: _ } = self;
        let Found { folders: _, files } = found;
        let mut files = files;
        files.sort()?;
        Ok(files)
    }
}

/// The entries of a folder, which is named from the one that the walk began in.
fn look_into<R: AllocGlobal + Files + Clone + Drop>(
    rt: &R,
    heap: Heap,
    root: &str,
    folder: String,
) -> Result<Entries<R>, Fault> {
    let name = joined(heap, root, folder.as_str())?;
    match read_dir(rt, name.as_str()) {
        Ok(left) => Ok(Entries { folder, name, left }),
        Err(_) => Err(cannot_read(heap, name.as_str())),
    }
}

/// Notes an entry of the folder that is looked into, where it can be read.
fn note_entry<R: AllocGlobal + Files + Clone + Drop>(
    heap: Heap,
    root: &Folder,
    entries: &Entries<R>,
    entry: io::Result<DirEntry<R>>,
    found: &mut Found,
) -> Result<(), Fault> {
    match entry {
        Ok(entry) => note(heap, root, entries.folder.as_str(), &entry, found),
        Err(_) => Err(cannot_read(heap, entries.name.as_str())),
    }
}

/// Notes a file or a folder, unless it has gone meanwhile.
fn note<R: AllocGlobal + Files + Clone + Drop>(
    heap: Heap,
    root: &Folder,
    folder: &str,
    entry: &DirEntry<R>,
    found: &mut Found,
) -> Result<(), Fault> {
    let name = entry.file_name();
    if name.starts_with('.') {
        return Ok(());
    }
    let path = joined(heap, folder, name)?;
    match entry.metadata() {
        Ok(told) => Ok(add_by_kind(found, root, &told, path)?),
        Err(e) if e.kind() == ErrorKind::NotFound => Ok(()),
        Err(_) => Err(cannot_read(heap, path.as_str())),
    }
}

/// Adds a folder, or a file whose name is that of a page or a medium.
fn add_by_kind(
    found: &mut Found,
    root: &Folder,
    told: &Metadata,
    path: String,
) -> Result<(), Memory> {
    if told.is_dir() {
        if is_one_of(root.except.get(), path.as_str()) {
            return Ok(());
        }
        return push(&mut found.folders, path);
    }
    if told.is_file() && is_taken(root, path.as_str()) {
        return push(&mut found.files, Seen::new(path, told));
    }
    Ok(())
}

/// Whether a file of this name is a page or a medium.
fn is_taken(folder: &Folder, name: &str) -> bool {
    name.ends_with(".md") || is_medium(&folder.media, name)
}

fn is_one_of(names: &[Text], name: &str) -> bool {
    names.iter().any(|one| one.get() == name)
}

/// Looks whether each of these names is a folder's in the folder, without a link on the way. `CannotRead` names the first that isn't.
pub fn check_folders<R: AllocGlobal + Files>(
    rt: &R,
    heap: Heap,
    root: &str,
    names: &[Text],
) -> Result<(), Fault> {
    for name in names {
        let path = joined(heap, root, name.get())?;
        if !is_folder(rt, heap, root, name.get())? {
            return Err(cannot_read(heap, path.as_str()));
        }
    }
    Ok(())
}

/// Whether a name in the folder is a folder's, and each part in front of it, too. A link is none.
fn is_folder<R: AllocGlobal + Files>(
    rt: &R,
    heap: Heap,
    root: &str,
    name: &str,
) -> Result<bool, Memory> {
    let mut path = String::from_str(heap, root)?;
    for part in name.split('/') {
        path.push_str("/")?;
        path.push_str(part)?;
        match symlink_metadata(rt, path.as_str()) {
            Ok(found) if found.is_dir() => {}
            _ => return Ok(false),
        }
    }
    Ok(true)
}

/// A name behind a folder and a slash; without a folder or a name the other alone.
pub fn joined(heap: Heap, folder: &str, name: &str) -> Result<String, Memory> {
    if name.is_empty() {
        return Ok(String::from_str(heap, folder)?);
    }
    file_name::joined(heap, folder, name)
}
