//! Links that are whole by their numbers: no text of theirs is read.

ghost use Rattle.std.specs.Prelude.{◌≡◌, ℕ, List as Seq, Option as Maybe, [], false, IfOk, option_copied};
ghost use Rattle.std.specs.List.{Contains};
ghost use Rattle.doc_links_seen.specs.Numbered.{AreNamed, AreStands, has_anchor_part, is_whole, is_whole_at, numbers_at, pair_at, whole_of};

use crate::named::Named;
use doc_links_names::page_numbers::PageNumbers;
use doc_page_parts::failure::Memory;
use doc_page_parts::heap::{Heap, Vec};

/// Where the pages that are seen stand, by the numbers of their paths; a page of each anchor; and the numbers of all pages, by slot. An
/// anchor that several pages have leads to one of them, and is sought among the numbers of the others.
#[derive(Drop)]
pub(crate) struct Stands<'a> {
    /// Of each number the slot of the page whose path has it, and 1; or 0.
    pub(crate) slots: Vec<u64>,
    pub(crate) named: &'a Named,
    pub(crate) numbers: &'a [Option<PageNumbers>],
}

impl<'a> Stands<'a> {
    /// No page stands, so that no link is whole. It takes no memory.
    pub fn none(heap: Heap, named: &'a Named) -> Stands<'a>
        ensures none { (own : Maybe PageNumbers) (i : ℕ) → whole_of result.slots.items result.numbers.now own i ≡ false }
        ensures numbers { result.numbers.now ≡ [] }
        ensures named { result.named.now ≡ named.now }
    {
        Stands {
            slots: Vec::new(heap),
            named,
            numbers: &[],
        }
    }

    /// The pages in these slots stand. The numbers of paths are below a bound.
    pub fn of(
        heap: Heap,
        bound: usize,
        slots: &[u64],
        numbers: &'a [Option<PageNumbers>],
        named: &'a Named,
    ) -> Result<Stands<'a>, Memory>
        ensures stands { IfOk result (λ stands. AreStands slots.now numbers.now stands.slots.items) }
        ensures named { IfOk result (λ stands. stands.named.now ≡ named.now) }
        ensures numbers { IfOk result (λ stands. stands.numbers.now ≡ numbers.now) }
    {
        Ok(Stands {
            slots: stands_of(heap, bound, slots, numbers)?,
            named,
            numbers,
        })
    }

    /// The numbers of the page in a slot.
    pub fn numbers_at(&self, slot: usize) -> Option<&PageNumbers>
        ensures { option_copied result ≡ numbers_at self.now.numbers.now slot }
    {
        numbers_at(self.numbers, slot)
    }

    /// Whether the link at a place of a page of these numbers is whole by its numbers. Where it isn't, its texts tell.
    pub fn is_whole(&self, own: Option<&PageNumbers>, place: usize) -> bool
        requires { AreNamed self.now.numbers.now self.now.named.now.slots.items }
        ensures { result ≡ whole_of self.now.slots.items self.now.numbers.now (option_copied own.entry) place }
    {
        let (path, anchor) = pair_at(own, place);
        self.leads_to(path, anchor)
    }

    /// Whether a link of these numbers leads to a page that stands, and to one of its anchors.
    fn leads_to(&self, path: u64, anchor: u64) -> bool
        requires { AreNamed self.now.numbers.now self.now.named.now.slots.items }
        ensures { result ≡ is_whole self.now.slots.items self.now.numbers.now path anchor }
    {
        let Some(number) = path.checked_sub(1) else {
            return false;
        };
        let Some(stand) = self.slots.get(number as usize) else {
            return false;
        };
        self.has_at(*stand, anchor)
    }

    /// Whether a page stands here, with an anchor of this number, where one is asked for.
    fn has_at(&self, stand: u64, anchor: u64) -> bool
        requires { AreNamed self.now.numbers.now self.now.named.now.slots.items }
        ensures { result ≡ is_whole_at self.now.numbers.now stand anchor }
    {
        let Some(slot) = stand.checked_sub(1) else {
            return false;
        };
        if anchor == 0 {
            return true;
        }
        if self.named.leads_to(anchor, stand) {
            return true;
        }
        has_anchor_part(numbers_at(self.numbers, slot as usize), anchor)
    }
}

/// Of each number below a bound the slot of the page whose path has it, of those in these slots, and 1; or 0.
fn stands_of(
    heap: Heap,
    bound: usize,
    slots: &[u64],
    numbers: &[Option<PageNumbers>],
) -> Result<Vec<u64>, Memory>
    ensures { IfOk result (λ stands. AreStands slots.now numbers.now stands.items) }
{
    let mut stands = Vec::new(heap);
    stands.resize(bound, 0)?;
    for slot in slots {
        set_stand(&mut stands, *slot, numbers);
    }
    Ok(stands)
}

/// The page in a slot stands.
fn set_stand(stands: &mut Vec<u64>, slot: u64, numbers: &[Option<PageNumbers>])
    ensures { (some : Seq ℕ) → Contains some slot → AreStands some numbers.now stands.old.items
        → AreStands some numbers.now stands.new.items }
{
    let Some(page) = numbers_at(numbers, slot as usize) else {
        return;
    };
    let Some(stand) = slot.checked_add(1) else {
        return;
    };
    let number = page.own();
    if number < stands.len() {
        stands[number] = stand;
    }
}

/// The numbers of the page in a slot.
fn numbers_at(numbers: &[Option<PageNumbers>], slot: usize) -> Option<&PageNumbers>
    ensures { option_copied result ≡ numbers_at numbers.now slot }
{
    let Some(numbers) = numbers.get(slot) else {
        return None;
    };
    numbers.as_ref()
}

/// The pair of the link at a place.
fn pair_at(own: Option<&PageNumbers>, place: usize) -> (u64, u64)
    ensures { result ≡ pair_at (option_copied own.entry) place }
{
    let Some(own) = own else {
        return (0, 0);
    };
    if place >= own.links_len() {
        return (0, 0);
    }
    own.link(place)
}

/// Whether a page has the anchor of this number, or none is asked for.
fn has_anchor_part(page: Option<&PageNumbers>, part: u64) -> bool
    ensures { result ≡ has_anchor_part (option_copied page.entry) part }
{
    let Some(page) = page else {
        return false;
    };
    let Some(anchor) = part.checked_sub(1) else {
        return true;
    };
    page.has_anchor_number(anchor)
}
