//! Folders that are named by a link. What is read of one is all below the folder that the name leads to as the reading begins: where the
//! link is switched meanwhile, nothing is read of what it leads to then.

use crate::looking::Looked;
use doc_page_parts::failure::Memory;
use doc_page_parts::heap::{Heap, String, Vec};
use doc_page_parts::list::List;
use doc_page_parts::text::Text;
use doc_server_config::bad_file::{BadFile, push_shown};
use doc_server_config::folder::Folder;
use doc_server_config::folder_pages::FolderFile;
use doc_server_config::folder_reading::FolderReading;
use doc_server_config::reason::Reason;
use doc_server_config::taken::Taken;
use doc_server_streams::fault::Fault;
use std::io::ErrorKind;
use std::rt::Files;

/// The name of a folder as it is written, and the one without links that it leads to.
#[derive(Clone, Copy, Drop)]
struct Names<'a> {
    written: &'a str,
    real: &'a str,
}

impl Names<'_> {
    /// A name below the real folder, as it is written: below the folder's written name.
    fn written_of(&self, heap: Heap, name: &str) -> Result<String, Memory> {
        let Some(rest) = name.strip_prefix(self.real) else {
            return Ok(String::from_str(heap, name)?);
        };
        let mut out = String::with_capacity(heap, self.written.len())?;
        out.push_str(self.written)?;
        out.push_str(rest)?;
        Ok(out)
    }

    /// A bad file of the real folder, told by the names as they are written.
    fn told_of(&self, heap: Heap, bad: BadFile) -> Result<BadFile, Memory> {
        let BadFile { name, reason } = bad;
        let name = Text::new(self.written_of(heap, name.get())?);
        let reason = match reason {
            Reason::PathOf(first) => {
                Reason::PathOf(Text::new(self.written_of(heap, first.get())?))
            }
            reason => reason,
        };
        Ok(BadFile { name, reason })
    }
}

/// A folder that is read a part at a time, all from the folder that its name led to as that began.
pub struct ResolvedReading<R: Files> {
    /// Its name as it is written.
    written: Text,
    /// The folder that the name led to.
    folder: Folder,
    reading: FolderReading<R>,
}

/// Written out, so that it is proved here once: what a derived drop does is proved wherever a value is let go.
impl<R: Files + Drop> Drop for ResolvedReading<R> {
    fn drop(self) {
        let ResolvedReading {
            written: _,
            folder: _,
            reading: _,
        } = self;
    }
}

/// A folder that was read.
#[derive(Drop)]
pub struct ResolvedFiles {
    /// Its files. Whatever is told of them names the folder as it is written.
    pub files: List<FolderFile>,
    pub looked: Looked,
}

impl<R: AllocGlobal + Files + Clone + Drop> ResolvedReading<R> {
    /// A folder of which nothing is read.
    pub fn begin(rt: &R, heap: Heap, folder: &Folder) -> Result<ResolvedReading<R>, Memory> {
        let written = folder.file.copy(heap)?;
        let folder = led_to(rt, heap, folder)?;
        Ok(ResolvedReading {
            written,
            folder,
            reading: FolderReading::begin(heap)?,
        })
    }

    /// Reads on in the folder. True: all is read.
    pub fn part(&mut self, rt: &R, heap: Heap, taken: &mut Taken) -> Result<bool, Fault> {
        match self.reading.part(rt, heap, &self.folder, taken) {
            Err(Fault::CannotRead(name)) => {
                let names = Names {
                    written: self.written.get(),
                    real: self.folder.file.get(),
                };
                Err(Fault::CannotRead(names.written_of(heap, name.as_str())?))
            }
            part => part,
        }
    }

    /// What was read.
    pub fn end(self, heap: Heap) -> Result<ResolvedFiles, Memory> {
        let ResolvedReading {
            written,
            folder,
            reading,
        } = self;
        let (files, seen) = reading.end();
        let names = Names {
            written: written.get(),
            real: folder.file.get(),
        };
        let files = told_as_written(heap, names, files)?;
        Ok(ResolvedFiles {
            files,
            looked: Looked { folder, seen },
        })
    }
}

/// The folder that the name of one leads to; where that can't be told, the folder itself.
fn led_to<R: AllocGlobal + Files>(rt: &R, heap: Heap, folder: &Folder) -> Result<Folder, Memory> {
    let written = folder.file.get();
    match rt.canonicalize(heap, written) {
        Ok(real) => moved_to(heap, folder, real.as_str()),
        Err(e) if e.kind() == ErrorKind::OutOfMemory => Err(Memory),
        Err(_) => moved_to(heap, folder, written),
    }
}

/// A folder as one of this name.
fn moved_to(heap: Heap, folder: &Folder, name: &str) -> Result<Folder, Memory> {
    Ok(Folder {
        file: Text::copy_of(heap, name)?,
        prefix: folder.prefix.copy(heap)?,
        groups: folder.groups.copy(heap)?,
        except: copies_of(heap, folder.except.get())?,
        media: match &folder.media {
            Some(media) => Some(copies_of(heap, media.get())?),
            None => None,
        },
        rules: folder.rules,
    })
}

fn copies_of(heap: Heap, texts: &[Text]) -> Result<List<Text>, Memory> {
    let mut copies = Vec::with_capacity(heap, texts.len())?;
    for text in texts {
        copies.push(text.copy(heap)?)?;
    }
    Ok(List::new(copies))
}

/// Files whose bad ones are told by the names as they are written.
fn told_as_written(
    heap: Heap,
    names: Names<'_>,
    files: List<FolderFile>,
) -> Result<List<FolderFile>, Memory> {
    let (written, real) = (shown(heap, names.written)?, shown(heap, names.real)?);
    let names = Names {
        written: written.as_str(),
        real: real.as_str(),
    };
    let mut told = Vec::new(heap);
    for file in files.into_inner() {
        told.push(match file {
            FolderFile::Bad(bad) => FolderFile::Bad(names.told_of(heap, bad)?),
            file => file,
        })?;
    }
    Ok(List::new(told))
}

/// A name of a file as it is told.
fn shown(heap: Heap, name: &str) -> Result<String, Memory> {
    let mut out = String::with_capacity(heap, name.len())?;
    push_shown(&mut out, name)?;
    Ok(out)
}
