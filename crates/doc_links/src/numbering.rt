//! The numbers of the pages of an index, and the names that they count.

ghost use Rattle.std.specs.Prelude.{◌≡◌, ◌≢◌, ◌<◌, ◌+◌, ℕ, List as Seq, Option as Maybe, None, Some, OnOk, OnErr, length, option_copied, slice_index_or};
ghost use Rattle.std.specs.FinMap as map;
ghost use Rattle.doc_index.specs.Held.{AreApart, held, known_as, slot_at};
ghost use Rattle.doc_index.specs.declared.held.Held.{Held as HeldPage};
ghost use Rattle.doc_index_tables.specs.Maps.{text_map};
ghost use Rattle.doc_links.specs.NumberingSteps.{HasNamed, HasNumbers, IsGone};
ghost use Rattle.doc_links_pages.specs.declared.page_links.PageLinks.{PageLinks};
ghost use Rattle.doc_links_seen.specs.Numbered.{AreNamed, numbers_at};

use doc_index::held::Held;
use doc_index::index::Index;
use doc_links_names::names::Names;
use doc_links_names::page_numbers::PageNumbers;
use doc_links_pages::known::Known;
use doc_links_seen::named::Named;
use doc_page_parts::failure::Memory;
use doc_page_parts::heap::{BTreeMap, Heap, String, Vec};
use doc_page_parts::path::Path;

/// The numbers of pages by their slots, the names that are numbered, and which page an anchor leads to.
#[derive(Drop)]
pub struct Numbering {
    pub(crate) names: Names,
    pub(crate) numbers: Vec<Option<PageNumbers>>,
    pub(crate) named: Named,
}

impl Numbering {
    /// No page has numbers. It takes no memory.
    pub(crate) fn new(heap: Heap) -> Numbering
        ensures numbered { (slots : Seq (Maybe (HeldPage PageLinks))) → HasNumbers slots result }
        ensures named { HasNamed result }
    {
        Numbering {
            names: Names::new(heap),
            numbers: Vec::new(heap),
            named: Named::new(heap),
        }
    }

    /// Enters the numbers of the page in a slot. Where memory is refused it has none.
    fn enter(&mut self, heap: Heap, slot: usize, page: &Held<Known>) -> Result<(), Memory>
        ensures numbered { (slots : Seq (Maybe (HeldPage PageLinks))) → slot_at slots slot ≡ Some page.now
            → HasNumbers slots self.old → HasNumbers slots self.new }
        ensures named { HasNamed self.old → HasNamed self.new }
        ensures gone { OnErr result (numbers_at self.new.numbers.items slot ≡ None) }
    {
        forget_anchors(&self.numbers, &mut self.named, slot);
        clear(&mut self.numbers, slot);
        make_room(&mut self.numbers, slot)?;
        let Ok(numbers) = PageNumbers::of(heap, &mut self.names, slot, &page.path, &page.value)
        else {
            PageNumbers::leave(&mut self.names, slot, &page.path, &page.value);
            return Err(Memory);
        };
        self.named.enter(slot, &numbers);
        self.numbers[slot] = Some(numbers);
        Ok(())
    }

    /// Lets the numbers of the page in a slot go.
    fn leave(&mut self, slot: usize, page: &Held<Known>)
        ensures numbered { (slots : Seq (Maybe (HeldPage PageLinks)))
            → HasNumbers slots self.old → HasNumbers slots self.new }
        ensures named { HasNamed self.old → HasNamed self.new }
        ensures gone { numbers_at self.new.numbers.items slot ≡ None }
    {
        forget_anchors(&self.numbers, &mut self.named, slot);
        clear(&mut self.numbers, slot);
        PageNumbers::leave(&mut self.names, slot, &page.path, &page.value);
    }
}

/// No anchor leads to a slot. It takes no memory.
fn forget_anchors(numbers: &[Option<PageNumbers>], named: &mut Named, slot: usize)
    ensures named { AreNamed numbers.now named.old.slots.items → AreNamed numbers.now named.new.slots.items }
    ensures gone { AreNamed numbers.now named.old.slots.items
        → (n : ℕ) → slice_index_or named.new.slots.items n 0 ≢ slot + 1 }
{
    let Some(page) = numbers_at(numbers, slot) else {
        return;
    };
    named.leave(slot, page);
}

/// The numbers of the page in a slot.
fn numbers_at(numbers: &[Option<PageNumbers>], slot: usize) -> Option<&PageNumbers>
    ensures { option_copied result ≡ numbers_at numbers.now slot }
{
    let Some(numbers) = numbers.get(slot) else {
        return None;
    };
    numbers.as_ref()
}

/// A slot has no numbers.
fn clear(numbers: &mut Vec<Option<PageNumbers>>, slot: usize)
    ensures gone { numbers_at numbers.new.items slot ≡ None }
    ensures others { (i : ℕ) → i ≢ slot
        → numbers_at numbers.new.items i ≡ numbers_at numbers.old.items i }
{
    if slot < numbers.len() {
        numbers[slot] = None;
    }
}

/// Makes room for the numbers of the page in a slot.
fn make_room(numbers: &mut Vec<Option<PageNumbers>>, slot: usize) -> Result<(), Memory>
    ensures room { OnOk result (slot < length numbers.new.items) }
    ensures same { (i : ℕ) → numbers_at numbers.new.items i ≡ numbers_at numbers.old.items i }
{
    'room: while numbers.len() <= slot {
        numbers.push(None)?;
    }
    Ok(())
}

/// Holds a page under a path and a stamp that none has, with its numbers. A refusal leaves the pages that are held.
pub(crate) fn add_numbered(
    heap: Heap,
    pages: &mut Index<Known>,
    numbering: &mut Numbering,
    path: &Path,
    stamp: u64,
    known: Known,
    keys: &BTreeMap<String, u64>,
) -> Result<(), Memory>
    requires free { map.get (held pages.old) (path.now, stamp) ≡ None }
    ensures ok { OnOk result (held pages.new
        ≡ map.insert (held pages.old) (path.now, stamp) (known_as known (text_map keys.now))) }
    ensures err { OnErr result (held pages.new ≡ held pages.old) }
    ensures numbered { HasNumbers pages.old numbering.old → HasNumbers pages.new numbering.new }
    ensures named { HasNamed numbering.old → HasNamed numbering.new }
{
    pages.add(path, stamp, known, keys)?;
    let Err(refused) = enter_page(heap, pages, numbering, path, stamp) else {
        return Ok(());
    };
    pages.drop_page(path, stamp);
    Err(refused)
}

/// Enters the numbers of the page under a path and a stamp. Where memory is refused it has none.
fn enter_page(
    heap: Heap,
    pages: &Index<Known>,
    numbering: &mut Numbering,
    path: &Path,
    stamp: u64,
) -> Result<(), Memory>
    ensures apart { AreApart pages.now }
    ensures numbered { HasNumbers pages.now numbering.old → HasNumbers pages.now numbering.new }
    ensures named { HasNamed numbering.old → HasNamed numbering.new }
    ensures gone { OnErr result (IsGone pages.now numbering.new path.now stamp) }
{
    let _apart = pages.len();
    let Some(slot) = pages.slot_of(path, stamp) else {
        return Ok(());
    };
    let Some(page) = pages.slot(slot) else {
        return Ok(());
    };
    numbering.enter(heap, slot, page)
}

/// Lets the numbers of the page under a path and a stamp go, if there is one. It takes no memory.
pub(crate) fn leave_page(pages: &Index<Known>, numbering: &mut Numbering, path: &Path, stamp: u64)
    ensures apart { AreApart pages.now }
    ensures numbered { HasNumbers pages.now numbering.old → HasNumbers pages.now numbering.new }
    ensures named { HasNamed numbering.old → HasNamed numbering.new }
    ensures gone { IsGone pages.now numbering.new path.now stamp }
{
    let _apart = pages.len();
    let Some(slot) = pages.slot_of(path, stamp) else {
        return;
    };
    let Some(page) = pages.slot(slot) else {
        return;
    };
    numbering.leave(slot, page);
}
