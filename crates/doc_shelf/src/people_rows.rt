//! The rows of the pages of a shelf that is for people.

ghost use Rattle.std.specs.Prelude.{◌≡◌, Some, OnErr, OnOk};
ghost use Rattle.std.specs.FinMap as map;
ghost use Rattle.doc_rows_links.specs.LinkRows.{AreTargets, Linking};
ghost use Rattle.doc_shelf.specs.Shelves.{ArePeopleRows, AreWiderRows, IsStanding};
ghost use Rattle.doc_store_readers.specs.Maps.{TextMap};
ghost use Rattle.doc_store_readers.specs.Pages.{Page};

use crate::page_change::PageChange;
use doc_page_parts::failure::Memory;
use doc_page_parts::heap::Heap;
use doc_page_parts::path::Path;
use doc_resolve::LinkKind;
use doc_rows::rows::Rows;
use doc_rows_links::link_rows::LinkRows;
use doc_store::groups::Groups;

/// The rows of pages by group, and by what their links write. They change together: a call changes both, or, where memory is refused, none.
#[derive(Drop)]
pub struct PeopleRows {
    pub by_group: Rows,
    pub by_link: LinkRows,
}

impl PeopleRows {
    /// No rows. It takes no memory.
    pub(crate) fn new(heap: Heap) -> PeopleRows
        ensures { result ≡ record { by_group = map.empty; by_link = map.empty } }
    {
        PeopleRows {
            by_group: Rows::new(heap),
            by_link: LinkRows::new(heap),
        }
    }

    /// Before a page with these groups is set at a path. After a refusal all rows are as they were.
    pub(crate) fn widen(
        &mut self,
        heap: Heap,
        path: &Path,
        change: &PageChange,
        groups: &Groups,
    ) -> Result<(), Memory>
        ensures ok { OnOk result ((linking : Linking) (pages : TextMap Page)
            → IsStanding linking pages path.now change.now → ArePeopleRows linking pages self.old
            → AreWiderRows linking pages path.now change.now groups.now self.new) }
        ensures err { OnErr result ((linking : Linking) (pages : TextMap Page)
            → IsStanding linking pages path.now change.now → ArePeopleRows linking pages self.old
            → ArePeopleRows linking pages self.new) }
    {
        self.by_group
            .widen(heap, path, change.before.as_ref(), groups)?;
        if self.by_link.widen(heap, path, change.with(groups)).is_err() {
            self.by_group
                .narrow_back(path, change.before.as_ref(), groups);
            return Err(Memory);
        }
        Ok(())
    }

    /// After the page is set. It takes no memory.
    pub(crate) fn narrow(&mut self, path: &Path, change: &PageChange, groups: &Groups)
        ensures { (linking : Linking) (pages : TextMap Page) (page : Page)
            → page.groups ≡ groups.now
            → AreTargets (linking path.now page) change.now.new
            → AreWiderRows linking pages path.now change.now groups.now self.old
            → ArePeopleRows linking (map.insert pages path.now page) self.new }
    {
        self.by_group.narrow(path, change.before.as_ref(), groups);
        self.by_link.narrow(path, change.with(groups));
    }

    /// After the page was refused. It takes no memory.
    pub(crate) fn narrow_back(&mut self, path: &Path, change: &PageChange, groups: &Groups)
        ensures { (linking : Linking) (pages : TextMap Page)
            → AreWiderRows linking pages path.now change.now groups.now self.old
            → ArePeopleRows linking pages self.new }
    {
        self.by_group
            .narrow_back(path, change.before.as_ref(), groups);
        self.by_link.narrow_back(path, change.with(groups));
    }

    /// The page at a path, which had these groups and links, goes. It takes no memory.
    pub(crate) fn lift(&mut self, path: &Path, groups: &Groups, links: &[LinkKind])
        ensures { (linking : Linking) (pages : TextMap Page) (page : Page)
            → map.get pages path.now ≡ Some page → page.groups ≡ groups.now
            → linking path.now page ≡ links.now → ArePeopleRows linking pages self.old
            → ArePeopleRows linking (map.remove pages path.now) self.new }
    {
        self.by_group.lift(path, groups);
        self.by_link.lift(path, groups, links);
    }
}
