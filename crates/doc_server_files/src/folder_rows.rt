//! The pages and the media of a configuration's folders.

ghost use Rattle.std.specs.Prelude.{◌≡◌};
ghost use Rattle.doc_server_files.specs.Rows.{row_of};

use crate::site_fault::SiteFault;
use doc_page_parts::failure::Memory;
use doc_page_parts::heap::{Heap, Vec};
use doc_page_parts::list::List;
use doc_page_parts::path::Path;
use doc_server_config::bad_file::BadFile;
use doc_server_config::folder_pages::{FolderFile, FolderMedium, FolderPage};
use doc_server_config::folder_rules::FolderRules;
use doc_server_config::page_row::{PageRow, Source};
use doc_server_config::readme::{Move, index_move};

/// What the folders of a configuration hold.
#[derive(Drop)]
pub struct FolderRows {
    pub rows: Vec<PageRow>,
    pub media: Vec<FolderMedium>,
    /// The moves of their READMEs, where the folders ask for that.
    pub moves: Vec<Move>,
    pub bad: Vec<BadFile>,
}

impl FolderRows {
    /// What no folders hold.
    pub fn none(heap: Heap) -> FolderRows {
        FolderRows {
            rows: Vec::new(heap),
            media: Vec::new(heap),
            moves: Vec::new(heap),
            bad: Vec::new(heap),
        }
    }
}

/// Adds the files of a folder. `Bad` is the first bad file, where the folder doesn't pass over such.
pub fn add_files(
    heap: Heap,
    found: &mut FolderRows,
    files: List<FolderFile>,
    rules: FolderRules,
) -> Result<(), SiteFault> {
    for file in files.into_inner() {
        add_file(heap, found, file, rules)?;
    }
    Ok(())
}

/// Adds a file. A bad one stops the program, unless such are passed over.
fn add_file(
    heap: Heap,
    found: &mut FolderRows,
    file: FolderFile,
    rules: FolderRules,
) -> Result<(), SiteFault> {
    match file {
        FolderFile::Page(page) => Ok(add_page(heap, found, page, rules.readme)?),
        FolderFile::Medium(medium) => Ok(found.media.push(medium).map_err(Memory::from)?),
        FolderFile::Bad(bad) if rules.skips => Ok(found.bad.push(bad).map_err(Memory::from)?),
        FolderFile::Bad(bad) => Err(SiteFault::Bad(bad)),
    }
}

/// Adds a page, and its move where it is a README.
fn add_page(
    heap: Heap,
    found: &mut FolderRows,
    page: FolderPage,
    readme: bool,
) -> Result<(), Memory> {
    if readme {
        add_move(heap, &mut found.moves, &page.path)?;
    }
    found.rows.push(row_of(page))?;
    Ok(())
}

/// Adds the move of a page, where it is a README.
fn add_move(heap: Heap, moves: &mut Vec<Move>, path: &Path) -> Result<(), Memory> {
    if let Some(one) = index_move(heap, path)? {
        moves.push(one)?;
    }
    Ok(())
}

/// A page of a folder, as one of the configuration.
fn row_of(page: FolderPage) -> PageRow
    ensures { result ≡ row_of page }
{
    let FolderPage { path, groups, text } = page;
    PageRow {
        path,
        groups,
        source: Source::Text(text),
    }
}
