//! The tail of a link or an image: what follows its `]` (CommonMark 0.31.2, sections 6.3 and 6.4).
//!
//! A tail is read as it stands: code spans and tags in it bind nothing, which is this project's choice.

ghost use Rattle.std.specs.Prelude.{◌≡◌, List, chars, IfOk, IfSome};
ghost use Rattle.doc_rules.specs.Rests.{IsRest};
ghost use Rattle.doc_rules.specs.Definitions.{Definition};
ghost use Rattle.doc_rules.specs.Links.{link_tail};
ghost use Rattle.doc_refs_parts.specs.Targets.{targets_of};
ghost use Rattle.doc_inlines_marks.specs.TailSteps.{tail_shown};

use crate::inline_tail::{TailSource, inline_tail};
use crate::reference_tail::reference_tail;
use crate::target_ref::TargetRef;
use doc_lines::entities::Entities;
use doc_page_parts::failure::Memory;
use doc_page_parts::heap::Heap;
use doc_refs::RefMap;

/// What the tail of a link or an image names, with the text behind the tail; `None` where no tail stands there. `between` is the text
/// between the brackets, `rest` the text behind the `]`.
///
/// An inline tail is tried first, and takes no memory. Of the text between the brackets, and of a label that follows, no more is looked
/// at than a label may have.
#[tactic(auto, unfolding(doc_rules::specs::Links::link_tail, crate::specs::Targets::named))]
pub fn link_tail<'t, 'r>(
    heap: Heap,
    entities: &'r Entities,
    refs: &'r RefMap,
    between: &str,
    rest: &'t str,
) -> Result<Option<(TargetRef<'t, 'r>, &'t str)>, Memory>
    ensures value { (definitions : List Definition) → refs.now ≡ targets_of definitions
        → IfOk result (λ found. tail_shown found
        ≡ link_tail entities.now definitions (chars between.now) (chars rest.now)) }
    ensures end { IfOk result (λ found. IfSome found
        (λ tail. IsRest (chars tail.1.now) (chars rest.now))) }
{
    match inline_tail(rest) {
        Some(TailSource { dest, title, rest }) => Ok(Some((
            TargetRef::Written {
                dest,
                title,
                entities,
            },
            rest,
        ))),
        None => reference_tail(heap, refs, between, rest),
    }
}
