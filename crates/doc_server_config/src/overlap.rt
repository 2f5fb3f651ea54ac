//! Paths that two sources give, of which one is a folder.

ghost use Rattle.std.specs.Prelude.{◌≡◌, IfOk, OnOk, option_copied};
ghost use Rattle.std.specs.FinMap as map;
ghost use Rattle.std.specs.List.{find};
ghost use Rattle.doc_server_config.specs.Overlaps.{first_overlap, media_paths, paths_of};
ghost use Rattle.doc_server_config.specs.OverlapSteps.{AreMarks, is_again};

use crate::folder_pages::FolderMedium;
use crate::page_row::PageRow;
use doc_page_parts::failure::Memory;
use doc_page_parts::heap::{BTreeMap, Heap};
use doc_page_parts::path::Path;
use std::marker::Model;

/// The paths of pages, each with whether it came again. Contracts see the map.
#[derive(Drop)]
pub(crate) struct Marks {
    entries: BTreeMap<Path, bool>,
}

impl Model for Marks {
    ghost use Rattle.std.specs.Prelude.{Bool};
    ghost use Rattle.std.specs.Coded.{coded_bool, coded_ℕ, coded_list};
    ghost use Rattle.std.specs.FinMap as map;
    ghost use Rattle.doc_store_readers.specs.Maps.{TextMap};

    ghost Value = { TextMap Bool };

    ghost coded = { map.code (coded_list coded_ℕ) coded_bool };

    ghost view = { λ m. map.from_entries m.entries.entries };
}

impl Marks {
    /// Those of these pages.
    pub(crate) fn of(heap: Heap, pages: &[PageRow]) -> Result<Marks, Memory>
        ensures { IfOk result (λ marks. AreMarks (paths_of pages.now) marks) }
    {
        let mut marks = Marks::none(heap);
        for page in pages {
            marks.add(page.path.copy(heap)?)?;
        }
        Ok(marks)
    }

    fn none(heap: Heap) -> Marks
        ensures { result ≡ map.empty }
    {
        Marks {
            entries: BTreeMap::new(heap),
        }
    }

    /// Adds a path, which comes again where it is there.
    fn add(&mut self, path: Path) -> Result<(), Memory>
        ensures { OnOk result
            (self.new ≡ map.insert self.old path (map.contains_key self.old path)) }
    {
        let again = self.has(&path);
        self.insert(path, again)
    }

    fn insert(&mut self, path: Path, again: bool) -> Result<(), Memory>
        ensures { OnOk result (self.new ≡ map.insert self.old path again) }
    {
        self.entries.insert(path, again)?;
        Ok(())
    }

    /// Whether a path is there.
    pub(crate) fn has(&self, path: &Path) -> bool
        ensures { result ≡ map.contains_key self.now path.now }
    {
        self.entries.contains_key(path)
    }

    fn is_again(&self, path: &Path) -> bool
        ensures { result ≡ is_again (map.get self.now path.now) }
    {
        match self.entries.get(path) {
            Some(again) => *again,
            None => false,
        }
    }

    /// The first path of some pages that is there.
    fn first_of<'a>(&self, pages: &'a [PageRow]) -> Option<&'a Path>
        ensures { option_copied result ≡ find (map.contains_key self.now) (paths_of pages.now) }
    {
        for page in pages {
            if self.has(&page.path) {
                return Some(&page.path);
            }
        }
        None
    }

    /// The first path of some pages that came again.
    fn first_again<'a>(&self, pages: &'a [PageRow]) -> Option<&'a Path>
        ensures { option_copied result
            ≡ find (λ path. is_again (map.get self.now path)) (paths_of pages.now) }
    {
        for page in pages {
            if self.is_again(&page.path) {
                return Some(&page.path);
            }
        }
        None
    }

    /// Those of the paths of these media.
    fn of_media(heap: Heap, media: &[FolderMedium]) -> Result<Marks, Memory>
        ensures { IfOk result (λ marks. AreMarks (media_paths media.now) marks) }
    {
        let mut marks = Marks::none(heap);
        for medium in media {
            marks.add(medium.path.copy(heap)?)?;
        }
        Ok(marks)
    }

    /// The first path of some media that came again.
    fn first_medium_again<'a>(&self, media: &'a [FolderMedium]) -> Option<&'a Path>
        ensures { option_copied result
            ≡ find (λ path. is_again (map.get self.now path)) (media_paths media.now) }
    {
        for medium in media {
            if self.is_again(&medium.path) {
                return Some(&medium.path);
            }
        }
        None
    }
}

/// How many different paths some pages have.
pub fn path_count(heap: Heap, pages: &[PageRow]) -> Result<usize, Memory> {
    let marks = Marks::of(heap, pages)?;
    Ok(marks.entries.len())
}

/// The first path, in the order of the rows of a configuration and of the pages of its folders behind them, that two of these give, of
/// which one is a folder's.
pub fn first_overlap<'a>(
    heap: Heap,
    rows: &'a [PageRow],
    others: &'a [PageRow],
) -> Result<Option<&'a Path>, Memory>
    ensures { IfOk result (λ path.
        option_copied path ≡ first_overlap (paths_of rows.now) (paths_of others.now)) }
{
    let marks = Marks::of(heap, others)?;
    match marks.first_of(rows) {
        Some(path) => Ok(Some(path)),
        None => Ok(marks.first_again(others)),
    }
}

/// The first path that a row of a configuration and a medium of its folders have, or two of these media: in the order of the rows, and
/// then of the media. A page of a folder has the path of none, by its name.
pub fn first_medium_overlap<'a>(
    heap: Heap,
    rows: &'a [PageRow],
    media: &'a [FolderMedium],
) -> Result<Option<&'a Path>, Memory>
    ensures { IfOk result (λ path.
        option_copied path ≡ first_overlap (paths_of rows.now) (media_paths media.now)) }
{
    let media_marks = Marks::of_media(heap, media)?;
    match media_marks.first_of(rows) {
        Some(path) => Ok(Some(path)),
        None => Ok(media_marks.first_medium_again(media)),
    }
}
