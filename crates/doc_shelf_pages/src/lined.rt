//! Renderings with the lines that contents have of their pages.

ghost use Rattle.std.specs.Prelude.{◌≡◌, ◌++◌, ◌∷◌, List as Seq, Option as Maybe, All, IfOk, IsTrue, is_some, map as mapped};
ghost use Rattle.doc_index.specs.Held.{entries_of, slot_at};
ghost use Rattle.doc_index.specs.declared.held.Held.{Held as Page};
ghost use Rattle.doc_shelf_pages.specs.RenderingSteps.{flagged_lines, lined, lines_of, texts_of};

use doc_index::index::Index;
use doc_listings::push_entry_lines;
use doc_page_parts::failure::Memory;
use doc_page_parts::heap::{Heap, String, Vec};
use doc_page_parts::path::Path;
use doc_page_parts::rendered::Heading;
use doc_page_parts::text::Text;
use doc_shelf_packed::PackedPage;

/// A rendering, packed, and the lines that contents have of its page.
#[derive(Drop)]
pub struct Lined {
    pub page: PackedPage,
    pub lines: Text,
}

impl Lined {
    /// The rendering of the page at a path.
    pub fn new(heap: Heap, path: &Path, page: PackedPage) -> Result<Lined, Memory>
        ensures { IfOk result (λ it. it ≡ lined path.now page) }
    {
        let lines = lines_of(heap, path, page.headings())?;
        Ok(Lined { page, lines })
    }
}

/// The lines of the page with these headings at a path, without spare room.
fn lines_of(heap: Heap, path: &Path, headings: &[Heading]) -> Result<Text, Memory>
    ensures { IfOk result (λ text. text ≡ lines_of path.now headings.now) }
{
    let mut lines = String::new(heap);
    push_entry_lines(heap, &mut lines, path, headings)?;
    Text::copy_of(heap, lines.as_str())
}

/// The lines of the pages in these slots whose flags are set: each slot has a page, and one flag. A slot is looked into where its flag is set.
pub fn flagged_lines<'a>(
    heap: Heap,
    pages: &'a Index<Lined>,
    slots: &[u64],
    flags: &[bool],
) -> Result<Vec<&'a Text>, Memory>
    requires { All (λ slot. IsTrue (is_some (slot_at pages.now slot))) slots.now }
    ensures { IfOk result (λ lines. texts_of lines.items
        ≡ flagged_lines flags.now (entries_of (mapped (slot_at pages.now) slots.now))) }
{
    let mut lines = Vec::with_capacity(heap, flags.len())?;
    let mut left = flags;
    'slots: for slot in slots {
        left = push_flagged(&mut lines, pages, *slot, left)?;
    }
    Ok(lines)
}

/// Adds the lines of a slot's page, where the first flag is set; and answers the flags of the pages behind.
fn push_flagged<'a, 'b>(
    lines: &mut Vec<&'a Text>,
    pages: &'a Index<Lined>,
    slot: u64,
    flags: &'b [bool],
) -> Result<&'b [bool], Memory>
    requires { IsTrue (is_some (slot_at pages.now slot)) }
    ensures { (rest : Seq (Maybe (Page Lined))) → IfOk result (λ left.
        texts_of lines.new.items ++ flagged_lines left.now (entries_of rest)
        ≡ texts_of lines.old.items
        ++ flagged_lines flags.now (entries_of (slot_at pages.now slot ∷ rest))) }
{
    let Some((flag, left)) = flags.split_first() else {
        return Ok(flags);
    };
    if !*flag {
        return Ok(left);
    }
    let Some(page) = pages.slot(slot as usize) else {
        return Ok(left);
    };
    lines.push(&page.value.lines)?;
    Ok(left)
}
