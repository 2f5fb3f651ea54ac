//! Broken links.

ghost use Rattle.std.specs.Prelude.{◌≡◌, ◌++◌, ℕ, List as Seq, [], ◌∷◌, None, true, IfOk, OnOk, option_copied, option_map};
ghost use Rattle.doc_index.specs.Held.{held, slot_at};
ghost use Rattle.doc_links_seen.specs.Memos.{IsMemo};
ghost use Rattle.doc_links_seen.specs.Numbered.{AreAllWhole, AreNamed, AreNumbered, AreSeen, AreWhole, broken_of, whole_of};
ghost use Rattle.doc_links_seen.specs.SeenSteps.{IsInOrder, page_in, pages_at};
ghost use Rattle.doc_links_pages.specs.Links.{broken, broken_by, broken_from, broken_with, fault_in, fault_of, page_among};
ghost use Rattle.doc_links_pages.specs.declared.answers.Broken.{Broken as BrokenLink};
ghost use Rattle.doc_links_seen.specs.SeenPages.{seen_page, seen_pages};
ghost use Rattle.doc_links_seen.specs.Tellers.{AreToldOf};

use crate::memo::Memo;
use crate::named::Named;
use crate::seen::{SeenPage, pages_at};
use crate::stands::Stands;
use crate::teller::Teller;
use doc_index::index::Index;
use doc_links_names::names::Names;
use doc_links_names::page_numbers::PageNumbers;
use doc_links_pages::answers::{Broken, Reason};
use doc_links_pages::known::Known;
use doc_links_pages::reference::with_anchor;
use doc_page_parts::failure::Memory;
use doc_page_parts::heap::{Heap, Vec};
use doc_page_parts::list::List;
use doc_page_parts::path::Path;
use doc_page_parts::sight::Sight;
use doc_page_parts::text::Text;
use doc_resolve::LinkKind;

/// The broken links of these pages, which are all that the sight sees and stand in the order of their paths.
pub fn broken_in<S: Sight>(
    heap: Heap,
    pages: &[SeenPage],
    sight: &S,
) -> Result<List<Broken>, Memory>
    ensures { IsInOrder (seen_pages pages.now)
        → IfOk result (λ all. all ≡ broken (S.goals sight.now) (seen_pages pages.now)) }
{
    let mut all = Vec::new(heap);
    let mut memo = Memo::new(heap);
    let named = Named::new(heap);
    let stands = Stands::none(heap, &named);
    for page in pages {
        push_broken(heap, &mut all, page, None, &stands, pages, sight, &mut memo)?;
    }
    Ok(List::new(all))
}

/// The broken links of the pages in these slots, which are all that the sight sees and stand in the order of their paths. A link that
/// is whole by its numbers is passed over, and of the others the texts are read. Behind the links of each page stands what the teller
/// tells of it.
pub fn broken_numbered<S: Sight, T: Teller>(
    heap: Heap,
    index: &Index<Known>,
    slots: &[u64],
    names: &Names,
    numbers: &[Option<PageNumbers>],
    named: &Named,
    sight: &S,
    teller: &T,
) -> Result<List<Broken>, Memory>
    requires numbered { AreNumbered index.now names.now numbers.now }
    requires named { AreNamed numbers.now named.now.slots.items }
    requires order { IsInOrder (pages_at index.now slots.now) }
    requires seen { AreSeen (S.goals sight.now) (pages_at index.now slots.now) }
    ensures { (behind : Seq ℕ → Seq BrokenLink)
        → AreToldOf (T.told teller.now) behind (held index.now) → IfOk result (λ all.
        all ≡ broken_with behind (S.goals sight.now) (pages_at index.now slots.now)) }
{
    let pages = pages_at(heap, index, slots)?;
    let stands = Stands::of(heap, names.bound(), slots, numbers, named)?;
    let mut all = Vec::new(heap);
    let mut memo = Memo::new(heap);
    for slot in slots {
        let slot = *slot as usize;
        push_slot(
            heap, &mut all, index, slot, &stands, &pages, sight, teller, &mut memo,
        )?;
    }
    Ok(List::new(all))
}

/// As `broken_numbered`, without numbers: the texts of all links are read.
pub fn broken_told<S: Sight, T: Teller>(
    heap: Heap,
    index: &Index<Known>,
    slots: &[u64],
    sight: &S,
    teller: &T,
) -> Result<List<Broken>, Memory>
    ensures { (behind : Seq ℕ → Seq BrokenLink)
        → AreToldOf (T.told teller.now) behind (held index.now)
        → IsInOrder (pages_at index.now slots.now) → IfOk result (λ all.
        all ≡ broken_with behind (S.goals sight.now) (pages_at index.now slots.now)) }
{
    let pages = pages_at(heap, index, slots)?;
    let mut all = Vec::new(heap);
    let mut memo = Memo::new(heap);
    let named = Named::new(heap);
    let stands = Stands::none(heap, &named);
    for slot in slots {
        let slot = *slot as usize;
        push_slot(
            heap, &mut all, index, slot, &stands, &pages, sight, teller, &mut memo,
        )?;
    }
    Ok(List::new(all))
}

/// Adds the broken links of the page in a slot, and what the teller tells of it.
fn push_slot<'a, S: Sight, T: Teller>(
    heap: Heap,
    all: &mut Vec<Broken>,
    index: &'a Index<Known>,
    slot: usize,
    stands: &Stands,
    pages: &[SeenPage<'a>],
    sight: &S,
    teller: &T,
    memo: &mut Memo<'a>,
) -> Result<(), Memory>
    requires named { AreNamed stands.now.numbers.now stands.now.named.now.slots.items }
    requires whole { AreAllWhole (S.goals sight.now) (seen_pages pages.now) index.now
        stands.now.slots.items stands.now.numbers.now }
    requires memo { IsMemo (S.goals sight.now) (seen_pages pages.now) memo.old }
    ensures all { (behind : Seq ℕ → Seq BrokenLink)
        → AreToldOf (T.told teller.now) behind (held index.now) → IsInOrder (seen_pages pages.now)
        → OnOk result (all.new.items ≡ all.old.items ++ broken_of behind (S.goals sight.now)
        (seen_pages pages.now) (page_in (slot_at index.now slot))) }
    ensures memo { IsMemo (S.goals sight.now) (seen_pages pages.now) memo.new }
{
    let Some(page) = index.slot(slot) else {
        return Ok(());
    };
    let seen = SeenPage::new(&page.path, &page.value);
    let own = stands.numbers_at(slot);
    push_broken(heap, all, &seen, own, stands, pages, sight, memo)?;
    teller.push_told(all, &page.path, page.stamp)
}

/// Adds the broken links of a page of these numbers.
fn push_broken<'a, S: Sight>(
    heap: Heap,
    all: &mut Vec<Broken>,
    page: &SeenPage<'a>,
    own: Option<&PageNumbers>,
    stands: &Stands,
    pages: &[SeenPage<'a>],
    sight: &S,
    memo: &mut Memo<'a>,
) -> Result<(), Memory>
    requires named { AreNamed stands.now.numbers.now stands.now.named.now.slots.items }
    requires whole { AreWhole (S.goals sight.now) (seen_pages pages.now) page.now.known.now.links
        (whole_of stands.now.slots.items stands.now.numbers.now (option_copied own)) }
    requires memo { IsMemo (S.goals sight.now) (seen_pages pages.now) memo.old }
    ensures all { IsInOrder (seen_pages pages.now) → OnOk result (all.new.items ≡ all.old.items
        ++ broken_from (S.goals sight.now) (seen_pages pages.now) page.now.path.now 1
        page.now.known.now.links) }
    ensures memo { IsMemo (S.goals sight.now) (seen_pages pages.now) memo.new }
{
    for (index, link) in page.links().iter().enumerate() {
        let place = index as u64 + 1;
        let whole = stands.is_whole(own, index);
        if let Some((reason, target)) = fault_of(heap, link, whole, pages, sight, memo)? {
            push_fault(heap, all, page.path(), place, reason, target)?;
        }
    }
    Ok(())
}

/// Adds a broken link.
fn push_fault(
    heap: Heap,
    all: &mut Vec<Broken>,
    source: &Path,
    place: u64,
    reason: Reason,
    target: Text,
) -> Result<(), Memory>
    ensures { OnOk result (all.new.items ≡ all.old.items
        ++ record { source = source.now; place = place; reason = reason; target = target } ∷ []) }
{
    let source = source.copy(heap)?;
    all.push(Broken {
        source,
        place,
        reason,
        target,
    })?;
    Ok(())
}

/// Why a link is broken, if it is, and what is told of it. One who knows that it is whole says so.
fn fault_of<'a, S: Sight>(
    heap: Heap,
    link: &'a LinkKind,
    whole: bool,
    pages: &[SeenPage<'a>],
    sight: &S,
    memo: &mut Memo<'a>,
) -> Result<Option<(Reason, Text)>, Memory>
    requires whole { whole ≡ true
        → fault_of (S.goals sight.now) (seen_pages pages.now) link.now ≡ None }
    requires memo { IsMemo (S.goals sight.now) (seen_pages pages.now) memo.old }
    ensures fault { IsInOrder (seen_pages pages.now) → IfOk result (λ fault.
        fault ≡ fault_of (S.goals sight.now) (seen_pages pages.now) link.now) }
    ensures memo { IsMemo (S.goals sight.now) (seen_pages pages.now) memo.new }
{
    if whole {
        return Ok(None);
    }
    match link {
        LinkKind::External => Ok(None),
        LinkKind::Page { path, anchor } => {
            let page = memo.page_among(path, pages, sight);
            fault_in(heap, path, anchor, page)
        }
        LinkKind::Nowhere => Ok(Some((Reason::Path, Text::copy_of(heap, "-")?))),
    }
}

/// Why a link to a path and an anchor is broken, if it is, by the page that the path leads to.
fn fault_in(
    heap: Heap,
    path: &Path,
    anchor: &Option<Text>,
    page: Option<SeenPage>,
) -> Result<Option<(Reason, Text)>, Memory>
    ensures { IfOk result (λ fault.
        fault ≡ fault_in path.now anchor.now (option_map seen_page page.entry)) }
{
    let Some(page) = page else {
        return Ok(Some((Reason::Page, Text::copy_of(heap, path.text())?)));
    };
    let Some(anchor) = anchor else {
        return Ok(None);
    };
    if page.known().has_anchor(anchor) {
        return Ok(None);
    }
    Ok(Some((Reason::Anchor, with_anchor(heap, path, anchor)?)))
}
