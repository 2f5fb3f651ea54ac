//! The inlines of a text, in one pass (CommonMark 0.31.2, section 6).
//!
//! A [`Reader`] keeps its room from text to text; [`inlines`] is one call of one. It goes over the text item by item, and an item is told
//! by its first character (`Reader::item`):
//!
//! 1. plain text is passed over by a table of bytes, and gets one mark when the next one is put (`Reader::flush`);
//! 2. escapes, references, code spans, autolinks, raw HTML, breaks and bare links are read whole, so they bind before brackets;
//! 3. a run of `*`, `_` or `~` gets a mark for each delimiter, and is kept among the runs (`doc_inlines_emphasis`);
//! 4. a `[` or `![` is put as text and kept on a stack of open brackets (`draft`). At a `]` the last one leaves the stack: with a tail
//!    behind the `]`, what stands between is wrapped in emphasis, and the bracket's mark becomes the start of a link or an image; else
//!    both stay text. So brackets bind before emphasis;
//! 5. at the end of the text all that is left is wrapped in emphasis.
//!
//! Each search that may run to the end of the text in vain leaves a note, so that it isn't made again (`doc_inlines_marks`), and a label
//! is looked at up to 1,000 characters. Where a call answers `Memory`, nothing is known of the marks.
#![tactic(auto)]

ghost use Rattle.std.specs.Prelude.{◌≡◌, List, chars, IfOk};
ghost use Rattle.doc_rules.specs.Definitions.{Definition};
ghost use Rattle.doc_rules.specs.Reading.{inlines_of};
ghost use Rattle.doc_refs_parts.specs.Targets.{targets_of};
ghost use Rattle.doc_inlines.specs.Marks.{inlines_shown, AreSlices, AreCut};

mod bracket;
mod brackets;
mod classes;
mod draft;
mod enclosed;
mod escapes;
mod gaps;
mod links;
mod mark;
mod plain;
mod reader;
mod runs;

use doc_inlines_marks::arena::Arena;
use doc_lines::entities::Entities;
use doc_page_parts::failure::Memory;
use doc_page_parts::heap::{Heap, Vec};
use doc_refs::RefMap;
use mark::owned;
pub use mark::{Mark, Span};
pub use reader::Reader;

/// The inlines of a text. The slices of the marks stand in the text one after another, and each `&`, `<`, `>` and `"` is a text of
/// its own. It is for callers from outside: the product keeps a reader.
pub fn inlines<'t>(
    heap: Heap,
    text: &'t str,
    refs: &RefMap,
    entities: &Entities,
) -> Result<Vec<Mark<'t>>, Memory>
    ensures inlines { (definitions : List Definition) → refs.now ≡ targets_of definitions
        → IfOk result (λ marks. inlines_shown marks.items
        ≡ inlines_of entities.now definitions (chars text.now)) }
    ensures slices { IfOk result (λ marks. AreSlices (chars text.now) marks.items) }
    ensures cut { IfOk result (λ marks. AreCut marks.items) }
{
    Ok(inlines_counted(heap, text, refs, entities)?.0)
}

/// The same, and how many delimiter runs the searches for an opener looked at.
pub fn inlines_counted<'t>(
    heap: Heap,
    text: &'t str,
    refs: &RefMap,
    entities: &Entities,
) -> Result<(Vec<Mark<'t>>, u64), Memory>
    ensures inlines { (definitions : List Definition) → refs.now ≡ targets_of definitions
        → IfOk result (λ marks. inlines_shown marks.0.items
        ≡ inlines_of entities.now definitions (chars text.now)) }
    ensures slices { IfOk result (λ marks. AreSlices (chars text.now) marks.0.items) }
    ensures cut { IfOk result (λ marks. AreCut marks.0.items) }
{
    let arena = Arena::new(heap);
    read_whole(heap, &arena, text, refs, entities)
}

/// The same over an arena: what the reader's marks borrow beside the text has one lifetime.
fn read_whole<'t, 'r>(
    heap: Heap,
    arena: &'r Arena,
    text: &'t str,
    refs: &'r RefMap,
    entities: &'r Entities,
) -> Result<(Vec<Mark<'t>>, u64), Memory>
    ensures inlines { (definitions : List Definition) → refs.now ≡ targets_of definitions
        → IfOk result (λ marks. inlines_shown marks.0.items
        ≡ inlines_of entities.now definitions (chars text.now)) }
    ensures slices { IfOk result (λ marks. AreSlices (chars text.now) marks.0.items) }
    ensures cut { IfOk result (λ marks. AreCut marks.0.items) }
{
    let mut reader = reader_of(heap, text, arena);
    reader.read(heap, entities, refs, text)?;
    let marks = owned(heap, reader.marks())?;
    Ok((marks, reader.looked()))
}

/// A reader of texts that live as long as this one: the prover's borrow checker takes lifetimes from arguments alone.
fn reader_of<'t, 'r>(heap: Heap, _text: &'t str, arena: &'r Arena) -> Reader<'t, 'r> {
    Reader::new(heap, arena)
}
