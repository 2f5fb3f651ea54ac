//! A configuration whose folders are read a part at a time.

use crate::listen_fault::ListenFault;
use crate::reload_fault::ReloadFault;
use doc_page_parts::failure::Memory;
use doc_page_parts::heap::Heap;
use doc_server_config::document::Document;
use doc_server_files::bounded::Opened;
use doc_server_files::folder_rows::FolderRows;
use doc_server_files::looking::{Look, Looking};
use doc_server_files::rows_reading::RowsReading;
use doc_server_files::seen_files::SeenFiles;
use std::rt::Files;

/// How often the folders are read again where files of theirs have changed meanwhile.
const MORE_TRIES: u32 = 8;

/// A configuration whose folders are read a part at a time. Behind the last of their files all are looked at once more: where one isn't as
/// it was, all are read again.
pub struct Reading<R: Files> {
    document: Document,
    opened: Opened,
    /// The files that it names, as they were before they were read.
    seen: SeenFiles,
    rows: RowsReading<R>,
    /// Whether all is read, and the look at it behind that.
    is_read: bool,
    looking: Looking<R>,
    /// How often all may still be read again.
    tries: u32,
}

/// Written out, so that it is proved here once: what a derived drop does is proved wherever a value is let go.
impl<R: Files + Drop> Drop for Reading<R> {
    fn drop(self) {
        let Reading {
            document: _,
            opened: _,
            seen: _,
            rows: _,
            is_read: _,
            looking: _,
            tries: _,
        } = self;
    }
}

/// A configuration that is read up to its folders.
#[derive(Drop)]
pub struct OpenedConfig {
    pub document: Document,
    pub opened: Opened,
    /// The files that it names, as they were before they were read.
    pub seen: SeenFiles,
}

/// A configuration whose folders were read.
pub struct ReadFolders {
    pub document: Document,
    pub opened: Opened,
    pub rows: FolderRows,
    /// Its files, as they were before they were read.
    pub seen: SeenFiles,
}

impl<R: AllocGlobal + Files + Clone + Drop> Reading<R> {
    /// Nothing of the folders is read yet.
    pub fn begin(heap: Heap, config: OpenedConfig) -> Result<Reading<R>, Memory> {
        let OpenedConfig {
            document,
            opened,
            seen,
        } = config;
        let rows = opened.begin_folders(heap, false)?;
        Ok(Reading {
            document,
            opened,
            seen,
            rows,
            is_read: false,
            looking: Looking::new(),
            tries: MORE_TRIES,
        })
    }

    /// All of the folders is read once, and not looked at again.
    pub fn all(rt: &R, heap: Heap, config: OpenedConfig) -> Result<Reading<R>, ReloadFault> {
        let mut reading = Reading::begin(heap, config)?;
        for _ in 0..u64::MAX {
            if reading.opened.read_on(rt, heap, &mut reading.rows)? {
                break;
            }
        }
        Ok(reading)
    }

    /// Reads on. True: all is read, and as it was. `Changing` says that files changed each time that they were read, any other fault what
    /// is wrong with one the last time.
    pub fn part(&mut self, rt: &R, heap: Heap) -> Result<bool, ReloadFault> {
        if self.is_read {
            return self.look_on(rt, heap);
        }
        self.read_on(rt, heap)?;
        Ok(false)
    }

    /// Reads more of the folders. Where one of them or of their files can't be read, which may have come or gone meanwhile, all are read
    /// again.
    fn read_on(&mut self, rt: &R, heap: Heap) -> Result<(), ReloadFault> {
        match self.opened.read_on(rt, heap, &mut self.rows) {
            Ok(is_read) => {
                self.is_read = is_read;
                Ok(())
            }
            Err(fault) => self.begin_again(heap, ReloadFault::from(fault)),
        }
    }

    /// Looks at more of them once more. True: all are as they were.
    fn look_on(&mut self, rt: &R, heap: Heap) -> Result<bool, ReloadFault> {
        let look = self.looking.part(rt, heap, self.rows.looked());
        match look.map_err(ListenFault::from)? {
            Look::Goes => Ok(false),
            Look::Same => Ok(true),
            Look::Changed => {
                self.begin_again(heap, ReloadFault::Changing)?;
                Ok(false)
            }
        }
    }

    /// Begins again, unless that was done so often that this fault is told.
    fn begin_again(&mut self, heap: Heap, fault: ReloadFault) -> Result<(), ReloadFault> {
        let Some(tries) = self.tries.checked_sub(1) else {
            return Err(fault);
        };
        self.rows = self.opened.begin_folders(heap, false)?;
        self.looking = Looking::new();
        self.is_read = false;
        self.tries = tries;
        Ok(())
    }

    /// What was read.
    pub fn end(self) -> ReadFolders {
        let Reading {
            document,
            opened,
            seen,
            rows,
            is_read: _,
            looking: _,
            tries: _,
        } = self;
        let (rows, folders) = rows.end();
        ReadFolders {
            document,
            opened,
            rows,
            seen: seen.with_folders(folders),
        }
    }
}
