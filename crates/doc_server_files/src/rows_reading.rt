//! The folders of a configuration, read a part at a time.

use crate::folder_rows::{FolderRows, add_files};
use crate::looking::Looked;
use crate::resolved_folder::{ResolvedFiles, ResolvedReading};
use crate::site_fault::SiteFault;
use doc_page_parts::failure::Memory;
use doc_page_parts::heap::{Heap, Vec};
use doc_server_config::folder::Folder;
use doc_server_config::folder_rules::FolderRules;
use doc_server_config::page_row::PageRow;
use doc_server_config::taken::Taken;
use std::rt::Files;

/// The folders of a configuration, read a part at a time.
pub struct RowsReading<R: Files> {
    taken: Taken,
    /// Whether bad files are passed over in each folder.
    all: bool,
    /// What was found so far, and the folders that were read.
    found: FolderRows,
    looked: Vec<Looked>,
    /// The folder that is read.
    reading: Option<ResolvedReading<R>>,
}

/// Written out, so that it is proved here once: what a derived drop does is proved wherever a value is let go.
impl<R: Files + Drop> Drop for RowsReading<R> {
    fn drop(self) {
        let RowsReading {
            taken: _,
            all: _,
            found: _,
            looked: _,
            reading: _,
        } = self;
    }
}

impl<R: AllocGlobal + Files + Clone + Drop> RowsReading<R> {
    /// Nothing is read yet, beside the pages of the configuration's rows. The media have so many bytes together at most. `Bad` is the first
    /// bad file of a folder that doesn't pass over such, unless all are asked for.
    pub fn begin(
        heap: Heap,
        rows: &[PageRow],
        media_bytes: usize,
        all: bool,
    ) -> Result<RowsReading<R>, Memory> {
        Ok(RowsReading {
            taken: Taken::beside(heap, rows, media_bytes)?,
            all,
            found: FolderRows::none(heap),
            looked: Vec::new(heap),
            reading: None,
        })
    }

    /// Reads on in these folders, each time the same. True: all is read.
    pub fn part(&mut self, rt: &R, heap: Heap, folders: &[Folder]) -> Result<bool, SiteFault> {
        let Some(folder) = folders.get(self.looked.len()) else {
            return Ok(true);
        };
        self.read_on(rt, heap, folder)?;
        Ok(false)
    }

    /// Reads on in a folder.
    fn read_on(&mut self, rt: &R, heap: Heap, folder: &Folder) -> Result<(), SiteFault> {
        let Some(reading) = &mut self.reading else {
            self.reading = Some(ResolvedReading::begin(rt, heap, folder)?);
            return Ok(());
        };
        if reading.part(rt, heap, &mut self.taken)? {
            self.end_folder(heap, folder.rules)?;
        }
        Ok(())
    }

    /// A folder is read.
    fn end_folder(&mut self, heap: Heap, rules: FolderRules) -> Result<(), SiteFault> {
        let Some(reading) = self.reading.take() else {
            return Ok(());
        };
        let ResolvedFiles { files, looked } = reading.end(heap)?;
        let skips = self.all || rules.skips;
        add_files(heap, &mut self.found, files, FolderRules { skips, ..rules })?;
        self.looked.push(looked).map_err(Memory::from)?;
        Ok(())
    }

    /// The folders that were read.
    pub fn looked(&self) -> &[Looked] {
        self.looked.as_slice()
    }

    /// What they hold, and the folders.
    pub fn end(self) -> (FolderRows, Vec<Looked>) {
        let RowsReading {
            taken: _,
            all: _,
            found,
            looked,
            reading: _,
        } = self;
        (found, looked)
    }
}
