//! The pages of an index that a sight sees.

ghost use Rattle.std.specs.Prelude.{◌≡◌, ◌++◌, ℕ, List as Seq, Bool, IfOk, IsTrue, OnOk, is_some, map as mapped, option_copied, option_map};
ghost use Rattle.std.specs.List.{All, filter, flat_map};
ghost use Rattle.doc_index.specs.Held.{slot_at};
ghost use Rattle.doc_page_parts.specs.Sights.{seen};
ghost use Rattle.doc_links_pages.specs.declared.page_links.PageLinks.{PageLinks};
ghost use Rattle.doc_links_seen.specs.SeenSteps.{IsInOrder, page_in, pages_at};
ghost use Rattle.doc_links_pages.specs.Links.{entry_of, page_at};
ghost use Rattle.doc_links_seen.specs.SeenPages.{seen_page, seen_pages};

use doc_index::held::Held;
use doc_index::index::Index;
use doc_links_pages::answers::Listed;
use doc_links_pages::known::Known;
use doc_page_parts::failure::Memory;
use doc_page_parts::heap::{Heap, Vec};
use doc_page_parts::path::Path;
use doc_page_parts::rendered::Heading;
use doc_page_parts::sight::Sight;
use doc_resolve::LinkKind;

/// A page that is seen.
#[derive(Clone, Copy)]
pub struct SeenPage<'a> {
    path: &'a Path,
    known: &'a Known,
}

impl<'a> SeenPage<'a> {
    /// What is known of the page at a path, for one who knows that it is seen.
    pub fn new(path: &'a Path, known: &'a Known) -> SeenPage<'a>
        ensures { seen_page result ≡ (path.now, known.now) }
    {
        SeenPage { path, known }
    }

    pub fn path(&self) -> &'a Path
        ensures { result.now ≡ self.now.path.now }
    {
        self.path
    }

    /// What each link of the page leads to, in order, also out of the site.
    pub fn links(&self) -> &'a [LinkKind]
        ensures { result.now ≡ self.now.known.now.links }
    {
        self.known.links()
    }

    /// The headings, in order.
    pub fn headings(&self) -> &'a [Heading]
        ensures { result.now ≡ self.now.known.now.headings }
    {
        self.known.headings()
    }

    pub(crate) fn known(&self) -> &'a Known
        ensures { result.now ≡ self.now.known.now }
    {
        self.known
    }
}

impl<'a> Listed for SeenPage<'a> {
    ghost entry = { λ page. entry_of (seen_page page) };

    fn path(&self) -> &Path {
        self.path
    }

    fn headings(&self) -> &[Heading] {
        self.known.headings()
    }
}

/// The pages in these slots that a sight sees, in this order.
pub fn seen_in<'a, S: Sight>(
    heap: Heap,
    pages: &'a Index<Known>,
    slots: &[u64],
    sight: &S,
) -> Result<Vec<SeenPage<'a>>, Memory>
    ensures { IfOk result (λ all. seen_pages all.items ≡ flat_map
        (λ slot. seen (S.goals sight.now) (page_in (slot_at pages.now slot))) slots.now) }
{
    let mut all = Vec::new(heap);
    for slot in slots {
        push_seen(&mut all, pages.slot(*slot as usize), sight)?;
    }
    Ok(all)
}

/// Adds the page of a slot, where there is one and it is seen.
fn push_seen<'a, S: Sight>(
    all: &mut Vec<SeenPage<'a>>,
    page: Option<&'a Held<Known>>,
    sight: &S,
) -> Result<(), Memory>
    ensures { OnOk result (seen_pages all.new.items ≡ seen_pages all.old.items
        ++ seen (S.goals sight.now) (page_in (option_copied page.entry))) }
{
    let Some(page) = page else {
        return Ok(());
    };
    if !sight.sees(&page.path) {
        return Ok(());
    }
    all.push(SeenPage {
        path: &page.path,
        known: &page.value,
    })?;
    Ok(())
}

/// Those of these slots whose pages are flagged. Each has a page, and there is a flag for each, in this order: none is looked up.
pub fn slots_flagged(
    heap: Heap,
    index: &Index<Known>,
    slots: &[u64],
    flags: &[bool],
) -> Result<Vec<u64>, Memory>
    requires present { All (λ slot. IsTrue (is_some (slot_at index.now slot))) slots.now }
    ensures { (sees : Seq ℕ × PageLinks → Bool)
        → flags.now ≡ mapped sees (pages_at index.now slots.now) → IfOk result (λ all.
        pages_at index.now all.items ≡ filter sees (pages_at index.now slots.now)) }
{
    let mut all = Vec::with_capacity(heap, slots.len())?;
    let mut rest = flags;
    for slot in slots {
        rest = push_flagged(&mut all, index, *slot, rest)?;
    }
    Ok(all)
}

/// Adds a slot that has a page, where the first flag says so. The flags behind that are left.
fn push_flagged<'a>(
    all: &mut Vec<u64>,
    index: &Index<Known>,
    slot: u64,
    flags: &'a [bool],
) -> Result<&'a [bool], Memory>
    requires present { IsTrue (is_some (slot_at index.now slot)) }
    ensures { (sees : Seq ℕ × PageLinks → Bool) (others : Seq (Seq ℕ × PageLinks))
        → flags.now ≡ mapped sees (page_in (slot_at index.now slot) ++ others)
        → IfOk result (λ rest. (rest.now ≡ mapped sees others)
        × (pages_at index.now all.new.items ≡ pages_at index.now all.old.items
        ++ filter sees (page_in (slot_at index.now slot)))) }
{
    let Some((flag, rest)) = flags.split_first() else {
        return Ok(flags);
    };
    if !*flag {
        return Ok(rest);
    }
    all.push(slot)?;
    Ok(rest)
}

/// The pages in these slots.
pub fn pages_at<'a>(
    heap: Heap,
    index: &'a Index<Known>,
    slots: &[u64],
) -> Result<Vec<SeenPage<'a>>, Memory>
    ensures { IfOk result (λ all. seen_pages all.items ≡ pages_at index.now slots.now) }
{
    let mut all = Vec::with_capacity(heap, slots.len())?;
    for slot in slots {
        push_page(&mut all, index.slot(*slot as usize))?;
    }
    Ok(all)
}

/// Adds the page of a slot, where there is one.
fn push_page<'a>(all: &mut Vec<SeenPage<'a>>, page: Option<&'a Held<Known>>) -> Result<(), Memory>
    ensures { OnOk result (seen_pages all.new.items
        ≡ seen_pages all.old.items ++ page_in (option_copied page.entry)) }
{
    let Some(page) = page else {
        return Ok(());
    };
    all.push(SeenPage {
        path: &page.path,
        known: &page.value,
    })?;
    Ok(())
}

/// The page at a path, where it is one of these, which stand in the order of their paths.
pub fn page_at<'a>(pages: &[SeenPage<'a>], path: &Path) -> Option<SeenPage<'a>>
    ensures { IsInOrder (seen_pages pages.now)
        → option_map seen_page result ≡ page_at (seen_pages pages.now) path.now }
{
    let Ok(at) = pages.binary_search_by(|page| page.path.cmp(path)) else {
        return None;
    };
    Some(pages[at])
}
