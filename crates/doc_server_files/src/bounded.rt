//! The site of a server that runs, with the pages of its folders.

ghost use Rattle.std.specs.Prelude.{◌≡◌, ◌++◌, IfOk, OnOk, None};
ghost use Rattle.doc_server_config.specs.Overlaps.{first_overlap, media_paths, paths_of};
ghost use Rattle.doc_server_files.specs.Rows.{HasOthers, HasOwnPaths, IsOwn};

use crate::files::{Pages, Site, document_of, read_file, site_of};
use crate::folder_rows::FolderRows;
use crate::gathered_media::{gathered_media, paths_of_media};
use crate::rows_reading::RowsReading;
use crate::site_fault::SiteFault;
use crate::told_faults::tell_faults;
use crate::written::{Written, written_in};
use doc_media::media::Media;
use doc_page_parts::failure::Memory;
use doc_page_parts::heap::{Heap, Vec};
use doc_page_parts::list::List;
use doc_page_parts::path::Path;
use doc_server_config::bad_file::BadFile;
use doc_server_config::bounds::Bounds;
use doc_server_config::document::Document;
use doc_server_config::folder::Folder;
use doc_server_config::folder_pages::FolderMedium;
use doc_server_config::overlap::{first_medium_overlap, first_overlap};
use doc_server_config::page_row::PageRow;
use doc_server_config::readme::{Move, free_moves};
use doc_server_log_names::names::Names;
use std::rt::Files;

/// A configured site with the bounds of a server that runs.
pub struct Bounded {
    pub site: Site,
    pub bounds: Bounds,
    /// The media of its folders, where one of them asks for media.
    pub media: Option<Media>,
    /// The paths of these media.
    pub media_paths: List<Path>,
    /// The moves that are made on its pages, once they stand.
    pub moves: List<Move>,
    /// The bad files that its folders pass over.
    pub passed: List<BadFile>,
    /// Its readers, as the log names them.
    pub names: Names,
}

/// Pages with those of folders behind them.
struct Gathered {
    pages: Pages,
    media: Option<Media>,
    /// The paths of the media.
    media_paths: List<Path>,
    /// The moves that are made on them.
    moves: List<Move>,
    /// The bad files that the folders pass over.
    passed: List<BadFile>,
}

/// Media of folders, where one of them asks for media, and their paths.
struct FoundMedia {
    media: Option<Media>,
    paths: List<Path>,
}

/// A configuration that is read up to its folders.
#[derive(Drop)]
pub struct Opened {
    pub site: Site,
    pub bounds: Bounds,
    pub folders: List<Folder>,
    pub names: Names,
}

impl Opened {
    /// Begins to read its folders. `Bad` is the first bad file of a folder that doesn't pass over such, unless all are asked for.
    pub fn begin_folders<R: AllocGlobal + Clone + Drop + Files>(
        &self,
        heap: Heap,
        all: bool,
    ) -> Result<RowsReading<R>, Memory> {
        let rows = self.site.pages.config.pages.get();
        RowsReading::begin(heap, rows, self.bounds.media_bytes, all)
    }

    /// Reads on in its folders. True: all is read.
    pub fn read_on<R: AllocGlobal + Clone + Drop + Files>(
        &self,
        rt: &R,
        heap: Heap,
        reading: &mut RowsReading<R>,
    ) -> Result<bool, SiteFault> {
        reading.part(rt, heap, self.folders.get())
    }

    /// What its folders hold.
    fn read_folders<R: AllocGlobal + Clone + Drop + Files>(
        &self,
        rt: &R,
        heap: Heap,
        all: bool,
    ) -> Result<FolderRows, SiteFault> {
        let mut reading = self.begin_folders(heap, all)?;
        for _ in 0..u64::MAX {
            if self.read_on(rt, heap, &mut reading)? {
                break;
            }
        }
        let (found, _) = reading.end();
        Ok(found)
    }
}

/// The document of the configuration of this name, and its site, its folders' pages behind its own, with its bounds. Folders are read last;
/// `Twice` has the first path, in the order of these pages, that a page of a folder and another page have.
pub fn read_bounded<R: AllocGlobal + Clone + Drop + Eprint + Files>(
    rt: &R,
    name: &str,
) -> Result<(Document, Bounded), SiteFault>
    ensures { IfOk result (λ read. HasOwnPaths read.1.site.pages.config) }
{
    let heap = rt.alloc();
    let (document, opened) = open(rt, heap, name)?;
    let bounded = bounded_of(rt, heap, opened)?;
    Ok((document, bounded))
}

/// The same of a configuration that is read up to its folders.
pub fn bounded_of<R: AllocGlobal + Clone + Drop + Files>(
    rt: &R,
    heap: Heap,
    opened: Opened,
) -> Result<Bounded, SiteFault>
    ensures { IfOk result
        (λ bounded. HasOthers opened.site.pages.config.pages bounded.site.pages.config.pages) }
{
    let rows = opened.read_folders(rt, heap, false)?;
    bounded_with(heap, opened, rows)
}

/// The same where what its folders hold is read.
pub fn bounded_with(heap: Heap, opened: Opened, found: FolderRows) -> Result<Bounded, SiteFault>
    ensures { IfOk result
        (λ bounded. HasOthers opened.site.pages.config.pages bounded.site.pages.config.pages) }
{
    let Opened {
        site,
        bounds,
        folders,
        names,
    } = opened;
    let Site { pages, entities } = site;
    let Gathered {
        pages,
        media,
        media_paths,
        moves,
        passed,
    } = with_folders(heap, pages, folders.get(), found)?;
    Ok(Bounded {
        site: Site { pages, entities },
        bounds,
        media,
        media_paths,
        moves,
        passed,
        names,
    })
}

/// The files of the folders of the configuration of this name, which is read as far as that.
pub fn read_all_folders<R: AllocGlobal + Clone + Drop + Eprint + Files>(
    rt: &R,
    name: &str,
) -> Result<FolderRows, SiteFault> {
    let heap = rt.alloc();
    let (_, opened) = open(rt, heap, name)?;
    opened.read_folders(rt, heap, true)
}

/// The document of the configuration of this name, and what it says, with the files that it names.
fn open<R: AllocGlobal + Eprint + Files>(
    rt: &R,
    heap: Heap,
    name: &str,
) -> Result<(Document, Opened), SiteFault>
    ensures { IfOk result (λ read. IsOwn read.1.site.pages.config) }
{
    let text = read_file(rt, heap, name)?;
    let (document, written) = written_or_told(rt, heap, name, &text)?;
    let opened = opened_of(rt, heap, written)?;
    Ok((document, opened))
}

/// The document that the text of a configuration is, and what it says of a server that runs. Where it is refused its faults are printed.
fn written_or_told<P: Eprint>(
    rt: &P,
    heap: Heap,
    name: &str,
    text: &str,
) -> Result<(Document, Written), SiteFault>
    ensures { IfOk result (λ read. IsOwn read.1.config) }
{
    match written_of(heap, text) {
        Ok(read) => Ok(read),
        Err(fault) => {
            tell_faults(rt, heap, name, text);
            Err(fault)
        }
    }
}

/// The document that the text of a configuration is, and what it says of a server that runs.
pub fn written_of(heap: Heap, text: &str) -> Result<(Document, Written), SiteFault>
    ensures { IfOk result (λ read. IsOwn read.1.config) }
{
    let document = document_of(heap, text)?;
    let written = written_in(heap, &document)?;
    Ok((document, written))
}

/// A configuration, with the files that it names.
pub fn opened_of<R: Files>(rt: &R, heap: Heap, written: Written) -> Result<Opened, SiteFault>
    ensures { IfOk result (λ opened. opened.site.pages.config ≡ written.config) }
{
    let Written {
        config,
        bounds,
        folders,
        names,
    } = written;
    Ok(Opened {
        site: site_of(rt, heap, config)?,
        bounds,
        folders,
        names,
    })
}

/// The pages with those of folders behind them, and the folders' media.
fn with_folders(
    heap: Heap,
    pages: Pages,
    folders: &[Folder],
    found: FolderRows,
) -> Result<Gathered, SiteFault>
    ensures { IfOk result
        (λ all. HasOthers pages.config.pages all.pages.config.pages) }
{
    check_apart(heap, pages.config.pages.get(), &found)?;
    let FolderRows {
        rows,
        media,
        moves,
        bad,
    } = found;
    let FoundMedia { media, paths } = media_of(heap, folders, media)?;
    let pages = with_rows(heap, pages, rows)?;
    let moves = free_moves(heap, pages.config.pages.get(), moves)?;
    Ok(Gathered {
        pages,
        media,
        media_paths: paths,
        moves: List::new(moves),
        passed: List::new(bad),
    })
}

/// Refuses pages and media of folders that have a path which another page or medium has.
fn check_apart(heap: Heap, rows: &[PageRow], found: &FolderRows) -> Result<(), SiteFault>
    ensures { OnOk result
        (first_overlap (paths_of rows.now) (paths_of found.now.rows.items) ≡ None) }
{
    check_overlap(heap, rows, &found.rows)?;
    check_media(heap, rows, &found.media)
}

/// The media of folders, and their paths.
fn media_of(
    heap: Heap,
    folders: &[Folder],
    media: Vec<FolderMedium>,
) -> Result<FoundMedia, SiteFault> {
    let paths = paths_of_media(heap, &media)?;
    let media = gathered_media(heap, folders, media)?;
    Ok(FoundMedia { media, paths })
}

/// Pages with others behind them.
fn with_rows(heap: Heap, pages: Pages, others: Vec<PageRow>) -> Result<Pages, Memory>
    ensures { IfOk result
        (λ all. all.config.pages ≡ pages.config.pages ++ others.items) }
{
    let mut all = pages;
    let rows = std::mem::replace(&mut all.config.pages, List::new(Vec::new(heap)));
    all.config.pages = joined(rows.into_inner(), others)?;
    Ok(all)
}

/// Refuses pages of folders that have a path which another page has.
fn check_overlap(heap: Heap, rows: &[PageRow], others: &[PageRow]) -> Result<(), SiteFault>
    ensures { OnOk result (first_overlap (paths_of rows.now) (paths_of others.now) ≡ None) }
{
    match first_overlap(heap, rows, others)? {
        Some(path) => Err(SiteFault::Twice(path.copy(heap)?)),
        None => Ok(()),
    }
}

/// Refuses media that have a path which another medium or a row has.
fn check_media(heap: Heap, rows: &[PageRow], media: &[FolderMedium]) -> Result<(), SiteFault>
    ensures { OnOk result (first_overlap (paths_of rows.now) (media_paths media.now) ≡ None) }
{
    match first_medium_overlap(heap, rows, media)? {
        Some(path) => Err(SiteFault::Twice(path.copy(heap)?)),
        None => Ok(()),
    }
}

/// Some pages, and others behind them.
fn joined(rows: Vec<PageRow>, others: Vec<PageRow>) -> Result<List<PageRow>, Memory>
    ensures { IfOk result (λ pages. pages ≡ rows.items ++ others.items) }
{
    let mut pages = rows;
    for page in others {
        pages.push(page)?;
    }
    Ok(List::new(pages))
}
