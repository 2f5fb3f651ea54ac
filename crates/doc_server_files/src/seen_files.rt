//! The files of a configuration as they were seen.

use crate::looking::{Look, Looked};
use doc_page_parts::failure::Memory;
use doc_page_parts::heap::{Heap, Vec};
use doc_page_parts::text::Text;
use doc_server_config::config::SiteConfig;
use doc_server_config::folder::Folder;
use doc_server_config::page_row::{PageRow, Source};
use doc_server_config::seen::Seen;
use doc_server_streams::fault::Fault;
use std::rt::Files;

/// The files of a configuration as they were seen before they were read: its own and those that it names, the folders that it names, and the
/// files of these.
pub struct SeenFiles {
    named: Vec<SeenFile>,
    folders: Vec<Looked>,
}

/// Written out, so that it is proved here once: what a derived drop does is proved wherever a value is let go.
impl Drop for SeenFiles {
    fn drop(self) {
        let SeenFiles {
            named: _,
            folders: _,
        } = self;
    }
}

/// A file or folder that is named, and what the system told of it.
#[derive(Drop)]
struct SeenFile {
    name: Text,
    seen: Option<Seen>,
}

impl SeenFiles {
    /// The configuration of this name alone, as it is now.
    pub fn of_config<R: Files>(rt: &R, heap: Heap, name: &str) -> Result<SeenFiles, Memory> {
        let mut seen = SeenFiles {
            named: Vec::new(heap),
            folders: Vec::new(heap),
        };
        seen.add(rt, heap, name)?;
        Ok(seen)
    }

    /// The same with the files that it names, as they are now.
    pub fn with_named<R: Files>(
        self,
        rt: &R,
        heap: Heap,
        config: &SiteConfig,
    ) -> Result<SeenFiles, Memory> {
        let mut seen = self;
        if let Some(table) = &config.entities {
            seen.add(rt, heap, table.get())?;
        }
        for page in config.pages.get() {
            seen.add_page(rt, heap, page)?;
        }
        Ok(seen)
    }

    /// The same with where the names of folders lead, as that is now: a name may be a link, which is switched.
    pub fn with_places<R: Files>(
        self,
        rt: &R,
        heap: Heap,
        folders: &[Folder],
    ) -> Result<SeenFiles, Memory> {
        let mut seen = self;
        for folder in folders {
            seen.add(rt, heap, folder.file.get())?;
        }
        Ok(seen)
    }

    /// The same with folders that were read.
    pub fn with_folders(self, folders: Vec<Looked>) -> SeenFiles {
        let mut seen = self;
        seen.folders = folders;
        seen
    }

    /// The folders that were read.
    pub fn folders(&self) -> &[Looked] {
        self.folders.as_slice()
    }

    /// Adds the file of a page, where it has one.
    fn add_page<R: Files>(&mut self, rt: &R, heap: Heap, page: &PageRow) -> Result<(), Memory> {
        match &page.source {
            Source::File(name) => self.add(rt, heap, name.get()),
            Source::Text(_) => Ok(()),
        }
    }

    /// Adds the file or the folder of this name.
    fn add<R: Files>(&mut self, rt: &R, heap: Heap, name: &str) -> Result<(), Memory> {
        let seen = Seen::of_file(rt, heap, name)?;
        let name = Text::copy_of(heap, name)?;
        Ok(self.named.push(SeenFile { name, seen })?)
    }

    /// Looks at what is named. `Goes`: they are as they were, and the folders are to be looked at.
    pub fn look<R: Files>(&self, rt: &R, heap: Heap) -> Result<Look, Fault> {
        for file in self.named.as_slice() {
            if Seen::of_file(rt, heap, file.name.get())? != file.seen {
                return Ok(Look::Changed);
            }
        }
        Ok(Look::Goes)
    }
}
