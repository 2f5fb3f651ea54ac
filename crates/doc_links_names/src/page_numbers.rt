//! The numbers of a page.

ghost use Rattle.std.specs.Prelude.{◌≡◌, ◌<◌, ℕ, List as Seq, true, false, IfOk, length, slice_index_or};
ghost use Rattle.std.specs.FinMap as map;
ghost use Rattle.doc_links_names.specs.Names.{AddsNothing, AddsOnly, Keeps, KeepsOthers, uses};
ghost use Rattle.doc_links_names.specs.PageNumbers.{IsNumbered, is_text_of};

use crate::link_numbers::{anchor_numbers, leave_headings, leave_links, link_numbers};
use crate::names::Names;
use doc_index_tables::pairs::Pairs;
use doc_index_tables::row::Row;
use doc_links_pages::known::Known;
use doc_page_parts::failure::Memory;
use doc_page_parts::heap::Heap;
use doc_page_parts::path::Path;

/// The numbers of a page: of its path, of what each link writes, and of the anchors of its headings.
#[derive(Drop)]
pub struct PageNumbers {
    /// The number of the page's path.
    pub own: usize,
    /// Of each link a pair: the number of the path that it writes and 1, or 0 where it writes none; and the number of its anchor and 1,
    /// or 0 where it has none.
    pub links: Pairs,
    /// The numbers of the anchors stand here. With which number says nothing.
    pub anchors: Row,
}

impl PageNumbers {
    /// Enters the texts of the page at a path for a slot, and tells their numbers. Where memory is refused, some of them may stand
    /// entered: `leave` takes them out.
    pub fn of(
        heap: Heap,
        names: &mut Names,
        slot: usize,
        path: &Path,
        page: &Known,
    ) -> Result<PageNumbers, Memory>
        ensures numbered { IfOk result (λ numbers. IsNumbered names.new slot path.now page.now numbers) }
        ensures kept { Keeps names.old names.new }
        ensures only { AddsOnly (is_text_of path.now page.now) slot names.old names.new }
    {
        let own = names.enter(heap, path.text(), slot)?;
        let links = link_numbers(heap, names, slot, page.links())?;
        let anchors = anchor_numbers(heap, names, slot, page.headings())?;
        Ok(PageNumbers {
            own,
            links,
            anchors,
        })
    }

    /// Lets a slot use the texts of the page at a path no longer. It takes no memory.
    pub fn leave(names: &mut Names, slot: usize, path: &Path, page: &Known)
        ensures kept { KeepsOthers slot names.old names.new }
        ensures gone { (text : Seq ℕ)
            → is_text_of path.now page.now text ≡ true → uses names.new text slot ≡ false }
        ensures fewer { AddsNothing names.old names.new }
    {
        names.leave(path.text(), slot);
        leave_links(names, slot, page.links());
        leave_headings(names, slot, page.headings());
    }

    /// The number of the page's path.
    pub fn own(&self) -> usize
        ensures { result ≡ self.now.own }
    {
        self.own
    }

    /// How many links the page has.
    pub fn links_len(&self) -> usize
        ensures { result ≡ length self.now.links }
    {
        self.links.len()
    }

    /// The pair of the link at a place, from 0.
    pub fn link(&self, at: usize) -> (u64, u64)
        requires { at < length self.now.links }
        ensures { result ≡ slice_index_or self.now.links at result }
    {
        self.links.at(at)
    }

    /// Whether a heading is known to have the anchor of this number.
    pub fn has_anchor_number(&self, number: u64) -> bool
        ensures { result ≡ map.contains_key self.now.anchors number }
    {
        self.anchors.get(number).is_some()
    }
}
