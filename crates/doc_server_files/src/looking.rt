//! Folders that were read, looked at once more.

use doc_page_parts::heap::{Heap, Vec};
use doc_server_config::folder::Folder;
use doc_server_config::seen::Seen;
use doc_server_config::walk::Walk;
use doc_server_streams::fault::Fault;
use std::rt::Files;

/// How many entries of folders are looked at in a part.
const COUNT: usize = 256;

/// A folder that was read, and the files that it had as that began.
#[derive(Drop)]
pub struct Looked {
    pub folder: Folder,
    pub seen: Vec<Seen>,
}

/// What a part of a look has found.
#[derive(Clone, Copy, Drop, PartialEq, Eq)]
pub enum Look {
    /// There is more to look at.
    Goes,
    /// All files are as they were.
    Same,
    /// One of them isn't, or can't be looked at.
    Changed,
}

/// A look at folders that were read, a part at a time.
pub struct Looking<R: Files> {
    /// How many of them were looked at, and the walk through the next.
    count: usize,
    walk: Option<Walk<R>>,
}

/// Written out, so that it is proved here once: what a derived drop does is proved wherever a value is let go.
impl<R: Files + Drop> Drop for Looking<R> {
    fn drop(self) {
        let Looking { count: _, walk: _ } = self;
    }
}

impl<R: AllocGlobal + Files + Clone + Drop> Looking<R> {
    /// Nothing is looked at yet.
    pub fn new() -> Looking<R> {
        Looking {
            count: 0,
            walk: None,
        }
    }

    /// Looks on at these folders, each time the same.
    pub fn part(&mut self, rt: &R, heap: Heap, folders: &[Looked]) -> Result<Look, Fault> {
        let Some(looked) = folders.get(self.count) else {
            return Ok(Look::Same);
        };
        match self.look_at(rt, heap, looked) {
            Ok(look) => Ok(look),
            Err(Fault::Memory) => Err(Fault::Memory),
            Err(_) => Ok(Look::Changed),
        }
    }

    /// Looks on at a folder.
    fn look_at(&mut self, rt: &R, heap: Heap, looked: &Looked) -> Result<Look, Fault> {
        let Some(walk) = &mut self.walk else {
            self.walk = Some(Walk::begin(heap)?);
            return Ok(Look::Goes);
        };
        if !walk.part(rt, heap, &looked.folder, COUNT)? {
            return Ok(Look::Goes);
        }
        self.end_folder(looked)
    }

    /// All files of a folder were looked at.
    fn end_folder(&mut self, looked: &Looked) -> Result<Look, Fault> {
        self.count = self.count.saturating_add(1);
        let Some(walk) = self.walk.take() else {
            return Ok(Look::Goes);
        };
        if walk.into_files()? == looked.seen {
            return Ok(Look::Goes);
        }
        Ok(Look::Changed)
    }
}
