//! What `lint` tells of the files that a configuration names.

use doc_lines::entities::{Entities, TableError};
use doc_page_parts::failure::Memory;
use doc_page_parts::heap::{Heap, String, Vec};
use doc_page_parts::text::Text;
use doc_server_config::folder::Folder;
use doc_server_config::folder_pages::{FolderFile, read_folder, read_reason, read_text};
use doc_server_config::overlap::path_count;
use doc_server_config::page_row::{PageRow, Source};
use doc_server_config::reason::{Reason, open_reason};
use doc_server_config::taken::Taken;
use doc_server_files::written::Written;
use doc_server_lint::sources::Sources;
use doc_server_lint_faults::finding::Finding;
use doc_server_lint_faults::place::Place;
use doc_server_lint_faults::what::What;
use doc_server_streams::fault::Fault;
use doc_server_streams::read_from::ReadFrom;
use doc_server_streams::whole_input::read_whole;
use std::fs::{File, metadata};
use std::rt::Files;

/// How many pages a site may have.
const PAGES: usize = 10_000;

/// What was taken of the rows so far.
#[derive(Drop)]
struct Rows {
    /// Which row gives a path.
    sources: Sources,
    taken: Taken,
}

/// Adds what is told of the files that a configuration names, in the order in which a server opens them.
pub fn add_of_files<R: AllocGlobal + Clone + Drop + Files>(
    rt: &R,
    heap: Heap,
    found: &mut Vec<Finding>,
    written: &Written,
) -> Result<(), Fault> {
    if let Some(file) = &written.config.entities {
        add_of_entities(rt, heap, found, file.get())?;
    }
    let pages = written.config.pages.get();
    let mut rows = Rows {
        sources: Sources::none(heap),
        taken: Taken::beside(heap, pages, written.bounds.media_bytes)?,
    };
    add_of_pages(rt, heap, found, pages, &mut rows)?;
    for (index, folder) in written.folders.get().iter().enumerate() {
        add_of_folder(rt, heap, found, index + 1, folder, &mut rows)?;
    }
    Ok(())
}

/// Adds what the table of entities tells.
fn add_of_entities<R: Files>(
    rt: &R,
    heap: Heap,
    found: &mut Vec<Finding>,
    file: &str,
) -> Result<(), Fault> {
    match table_fault(rt, heap, file)? {
        Some(what) => Ok(add(found, Place::Document, what, true)?),
        None => Ok(()),
    }
}

/// What is wrong with a table of entities.
fn table_fault<R: Files>(rt: &R, heap: Heap, file: &str) -> Result<Option<What>, Fault> {
    let table = match read_table(rt, heap, file)? {
        Ok(table) => table,
        Err(reason) => return Ok(Some(unread(heap, file, &reason)?)),
    };
    match Entities::from_table(heap, table.as_str()) {
        Ok(_entities) => Ok(None),
        Err(TableError::BadRow(line)) => Ok(Some(What::BadRow(line))),
        Err(TableError::Twice(line)) => Ok(Some(What::NameAgain(line))),
        Err(TableError::Memory) => Err(Fault::Memory),
    }
}

/// The text of a table, which may have any length, or why it has none.
fn read_table<R: Files>(rt: &R, heap: Heap, name: &str) -> Result<Result<String, Reason>, Memory> {
    let file = match File::open(rt, name) {
        Ok(file) => file,
        Err(e) => return Ok(Err(open_reason(e.kind()))),
    };
    match read_whole(heap, name, &mut ReadFrom::new(file), usize::MAX) {
        Ok(bytes) => Ok(text_of(bytes)),
        Err(Fault::Memory) => Err(Memory),
        Err(_) => Ok(Err(read_reason(rt, name))),
    }
}

fn text_of(bytes: Vec<u8>) -> Result<String, Reason> {
    match String::from_utf8(bytes) {
        Ok(text) => Ok(text),
        Err(_) => Err(Reason::NoText),
    }
}

/// Adds what the files of pages tell.
fn add_of_pages<R: AllocGlobal + Clone + Drop + Files>(
    rt: &R,
    heap: Heap,
    found: &mut Vec<Finding>,
    pages: &[PageRow],
    rows: &mut Rows,
) -> Result<(), Fault> {
    if path_count(heap, pages)? > PAGES {
        add(found, Place::Document, What::ManyPages, true)?;
    }
    for (index, page) in pages.iter().enumerate() {
        rows.sources.add_page(heap, page.path.text(), index + 1)?;
        if let Source::File(file) = &page.source {
            add_of_page(rt, heap, found, index + 1, file.get())?;
        }
    }
    Ok(())
}

/// Adds what the file of a page tells.
fn add_of_page<R: AllocGlobal + Clone + Drop + Files>(
    rt: &R,
    heap: Heap,
    found: &mut Vec<Finding>,
    number: usize,
    file: &str,
) -> Result<(), Memory> {
    match read_text(rt, heap, file)? {
        Ok(_text) => Ok(()),
        Err(reason) => {
            let what = unread(heap, file, &reason)?;
            add(found, Place::Page(number), what, true)
        }
    }
}

/// Adds what the files of a folder tell.
fn add_of_folder<R: AllocGlobal + Clone + Drop + Files>(
    rt: &R,
    heap: Heap,
    found: &mut Vec<Finding>,
    number: usize,
    folder: &Folder,
    rows: &mut Rows,
) -> Result<(), Fault> {
    let files = match read_folder(rt, heap, folder, &mut rows.taken) {
        Ok(files) => files.into_inner(),
        Err(Fault::CannotRead(name)) => {
            let what = unread(heap, name.as_str(), &folder_reason(rt, name.as_str()))?;
            return Ok(add(found, Place::Folder(number), what, true)?);
        }
        Err(fault) => return Err(fault),
    };
    if !files.iter().any(is_page) {
        add(found, Place::Folder(number), What::NoPage, false)?;
    }
    for file in files {
        add_of_file(
            heap,
            found,
            number,
            folder.rules.skips,
            file,
            &mut rows.sources,
        )?;
    }
    Ok(())
}

/// Why a folder can't be read.
fn folder_reason<R: Files>(rt: &R, name: &str) -> Reason {
    match metadata(rt, name) {
        Ok(_) => Reason::Unread,
        Err(e) => open_reason(e.kind()),
    }
}

fn is_page(file: &FolderFile) -> bool {
    matches!(file, FolderFile::Page(_))
}

/// Adds what a file of a folder tells, which may pass over bad ones.
fn add_of_file(
    heap: Heap,
    found: &mut Vec<Finding>,
    number: usize,
    skips: bool,
    file: FolderFile,
    sources: &mut Sources,
) -> Result<(), Memory> {
    let place = Place::Folder(number);
    let path = match &file {
        FolderFile::Page(page) => &page.path,
        FolderFile::Medium(medium) => &medium.path,
        FolderFile::Bad(bad) => {
            let what = unread(heap, bad.name.get(), &bad.reason)?;
            return add(found, place, what, !skips);
        }
    };
    match sources.add_of_folder(heap, path.text(), number)? {
        Some(what) => add(found, place, what, true),
        None => Ok(()),
    }
}

/// What is told of a file that can't be read.
fn unread(heap: Heap, file: &str, reason: &Reason) -> Result<What, Memory> {
    let reason = Text::new(format!(in heap; "{reason}")?);
    Ok(What::CannotRead(Text::copy_of(heap, file)?, reason))
}

/// Adds what is told of a place, and of no key.
pub fn add(
    found: &mut Vec<Finding>,
    place: Place,
    what: What,
    is_fault: bool,
) -> Result<(), Memory> {
    found.push(Finding {
        place,
        key: None,
        what,
        is_fault,
    })?;
    Ok(())
}
