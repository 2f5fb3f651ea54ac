//! What `lint` tells of a journal, over the site of its configuration.

use crate::linted_files::add;
use doc_page_parts::bytes::Bytes;
use doc_page_parts::failure::Memory;
use doc_page_parts::heap::{Heap, Vec};
use doc_page_parts::list::List;
use doc_page_parts::path::Path;
use doc_page_parts::text::Text;
use doc_server_config::readme::Move;
use doc_server_files::bounded::{Bounded, bounded_of, opened_of};
use doc_server_files::files::{Pages, Site};
use doc_server_files::moving::make_moves;
use doc_server_files::site_fault::SiteFault;
use doc_server_files::site_store::site_store;
use doc_server_files::written::Written;
use doc_server_journal_records::read_error::ReadError;
use doc_server_journal_records::reading::read;
use doc_server_lint_faults::finding::Finding;
use doc_server_lint_faults::place::Place;
use doc_server_lint_faults::what::What;
use doc_server_restore::fault::RestoreFault;
use doc_server_restore::restore::restore;
use doc_server_streams::fault::Fault;
use doc_server_streams::read_from::ReadFrom;
use doc_server_streams::whole_input::read_whole;
use doc_store::page::Page;
use doc_store::store::Store;
use std::fmt::Display;
use std::fs::File;
use std::io::ErrorKind;
use std::rt::Files;

/// How often a journal is read that looks damaged: a server may be writing it.
const TRIES: usize = 3;

/// What reading a journal gives.
#[derive(Drop)]
enum Read {
    /// The texts of its records.
    Texts(List<Bytes>),
    /// There is no file of its name.
    Absent,
    /// It can't be read.
    Unread,
    /// It is none, or damaged.
    Bad(ReadError),
}

/// Adds what a journal tells over the site of a configuration. It isn't locked, and nothing is written.
pub fn add_of_journal<R: AllocGlobal + Clone + Drop + Files>(
    rt: &R,
    heap: Heap,
    found: &mut Vec<Finding>,
    written: Written,
    name: &str,
) -> Result<(), SiteFault> {
    match texts_of(rt, heap, found, name)? {
        Some(texts) => add_of_texts(rt, heap, found, written, texts.get()),
        None => Ok(()),
    }
}

/// The texts of a journal's records. Why there are none to be read is told.
fn texts_of<R: Files>(
    rt: &R,
    heap: Heap,
    found: &mut Vec<Finding>,
    name: &str,
) -> Result<Option<List<Bytes>>, Memory> {
    match read_journal(rt, heap, name)? {
        Read::Texts(texts) => return Ok(Some(texts)),
        Read::Absent => told(heap, found, &"no journal yet", false)?,
        Read::Unread => told(heap, found, &"cannot open journal", true)?,
        Read::Bad(fault) => told(heap, found, &fault, true)?,
    }
    Ok(None)
}

/// Adds what the texts of a journal's records tell over the site of a configuration.
fn add_of_texts<R: AllocGlobal + Clone + Drop + Files>(
    rt: &R,
    heap: Heap,
    found: &mut Vec<Finding>,
    written: Written,
    records: &[Bytes],
) -> Result<(), SiteFault> {
    let (pages, moves) = pages_of(rt, heap, written)?;
    add_of_edits(heap, found, &pages, moves.get(), records)
}

/// Reads a journal, again where it looks damaged.
fn read_journal<R: Files>(rt: &R, heap: Heap, name: &str) -> Result<Read, Memory> {
    let mut read = read_once(rt, heap, name)?;
    for _ in 1..TRIES {
        if !matches!(read, Read::Bad(ReadError::Damaged(_))) {
            return Ok(read);
        }
        read = read_once(rt, heap, name)?;
    }
    Ok(read)
}

/// Reads a journal.
fn read_once<R: Files>(rt: &R, heap: Heap, name: &str) -> Result<Read, Memory> {
    let file = match File::open(rt, name) {
        Ok(file) => file,
        Err(e) => return Ok(unopened(e.kind())),
    };
    let bytes = match read_whole(heap, name, &mut ReadFrom::new(file), usize::MAX) {
        Ok(bytes) => bytes,
        Err(Fault::Memory) => return Err(Memory),
        Err(_) => return Ok(Read::Unread),
    };
    match read(heap, bytes.as_slice()) {
        Ok(journal) => Ok(Read::Texts(journal.texts)),
        Err(ReadError::Memory) => Err(Memory),
        Err(fault) => Ok(Read::Bad(fault)),
    }
}

fn unopened(kind: ErrorKind) -> Read {
    match kind {
        ErrorKind::NotFound => Read::Absent,
        _ => Read::Unread,
    }
}

/// The pages of a configuration, those of its folders behind its own, and the moves that are made on them.
fn pages_of<R: AllocGlobal + Clone + Drop + Files>(
    rt: &R,
    heap: Heap,
    written: Written,
) -> Result<(Pages, List<Move>), SiteFault> {
    let opened = opened_of(rt, heap, written)?;
    let Bounded {
        site,
        bounds: _,
        media: _,
        media_paths: _,
        moves,
        passed: _,
        names: _,
    } = bounded_of(rt, heap, opened)?;
    let Site { pages, entities: _ } = site;
    Ok((pages, moves))
}

/// Adds what the edits of a journal's records tell over a site.
fn add_of_edits(
    heap: Heap,
    found: &mut Vec<Finding>,
    pages: &Pages,
    moves: &[Move],
    records: &[Bytes],
) -> Result<(), SiteFault> {
    let config = store_of(heap, pages, moves)?;
    let mut site = store_of(heap, pages, moves)?;
    if make_edits(heap, found, &mut site, records)? {
        add_of_edited(heap, found, &config, &site)?;
    }
    Ok(())
}

/// Makes the edits of records on a site. False: they can't be made, which is told.
fn make_edits(
    heap: Heap,
    found: &mut Vec<Finding>,
    site: &mut Store,
    records: &[Bytes],
) -> Result<bool, SiteFault> {
    match restore(heap, site, records) {
        Ok(()) => Ok(true),
        Err(RestoreFault::Memory) => Err(SiteFault::Command(Fault::Memory)),
        Err(fault) => {
            told(heap, found, &fault, true)?;
            Ok(false)
        }
    }
}

/// The site of a configuration, in a store.
fn store_of(heap: Heap, pages: &Pages, moves: &[Move]) -> Result<Store, Fault> {
    let mut store = site_store(heap, &pages.config, pages.texts.get())?;
    make_moves(&mut store, moves)?;
    Ok(store)
}

/// Adds which pages of a configuration aren't as it has them in the site that the journal leads to.
fn add_of_edited(
    heap: Heap,
    found: &mut Vec<Finding>,
    config: &Store,
    site: &Store,
) -> Result<(), Memory> {
    for (path, page) in config.pages() {
        if !is_as_it_was(page, site.get(path)) {
            add_edited(heap, found, path)?;
        }
    }
    Ok(())
}

fn is_as_it_was(page: &Page, found: Option<&Page>) -> bool {
    match found {
        Some(found) => page.groups() == found.groups() && page.text() == found.text(),
        None => false,
    }
}

fn add_edited(heap: Heap, found: &mut Vec<Finding>, path: &Path) -> Result<(), Memory> {
    let what = What::Edited(Text::copy_of(heap, path.text())?);
    add(found, Place::Document, what, false)
}

/// Adds what is told of the journal as a whole.
fn told<D: Display>(
    heap: Heap,
    found: &mut Vec<Finding>,
    text: &D,
    is_fault: bool,
) -> Result<(), Memory> {
    let text = Text::new(format!(in heap; "{text}")?);
    add(found, Place::Document, What::Journal(text), is_fault)
}
