//! Reference links: full, collapsed and shortcut ones (CommonMark 0.31.2, section 6.3).
ghost use Rattle.std.specs.Prelude.{◌≡◌, List, chars, IfOk, IfSome};
ghost use Rattle.doc_rules.specs.Rests.{IsRest};
ghost use Rattle.doc_rules.specs.Definitions.{Definition};
ghost use Rattle.doc_rules.specs.Links.{reference_target, behind_empty_label, reference_tail};
ghost use Rattle.doc_refs_parts.specs.Targets.{targets_of};
ghost use Rattle.doc_inlines_marks.specs.TailSteps.{tail_shown};

use crate::label::{is_label, label};
use crate::target_ref::TargetRef;
use doc_lines::scan::front::front;
use doc_lines::scan::word::word;
use doc_page_parts::failure::Memory;
use doc_page_parts::heap::Heap;
use doc_refs::scan::inside::inside;
use doc_refs::{RefMap, normalize_label};

/// The tail of a reference: the label that follows, or else the text between the brackets itself, `[]` behind it or not. Where a label
/// follows, only that one counts.
#[tactic(auto, unfolding(doc_rules::specs::Links::reference_tail), using(doc_refs_parts::proofs::Rests::label_rest))]
pub fn reference_tail<'t, 'r>(
    heap: Heap,
    refs: &'r RefMap,
    between: &str,
    rest: &'t str,
) -> Result<Option<(TargetRef<'t, 'r>, &'t str)>, Memory>
    ensures value { (definitions : List Definition) → refs.now ≡ targets_of definitions
        → IfOk result (λ found. tail_shown found
        ≡ reference_tail definitions (chars between.now) (chars rest.now)) }
    ensures end { IfOk result (λ found. IfSome found
        (λ tail. IsRest (chars tail.1.now) (chars rest.now))) }
{
    if let Some(after) = label(rest) {
        return reference_target(heap, refs, inside(front(rest, after)), after);
    }
    if !is_label(between) {
        return Ok(None);
    }
    reference_target(heap, refs, between, behind_empty_label(rest))
}

/// The target that a label names, with the text behind the tail.
#[tactic(auto, unfolding(doc_rules::specs::Links::reference_target))]
fn reference_target<'t, 'r>(
    heap: Heap,
    refs: &'r RefMap,
    name: &str,
    after: &'t str,
) -> Result<Option<(TargetRef<'t, 'r>, &'t str)>, Memory>
    ensures value { (definitions : List Definition) → refs.now ≡ targets_of definitions
        → IfOk result (λ found. tail_shown found
        ≡ reference_target definitions (chars name.now) (chars after.now)) }
    ensures end { IfOk result (λ found. IfSome found (λ tail. tail.1.now ≡ after.now)) }
{
    let normal = normalize_label(heap, name)?;
    match refs.find(normal.get()) {
        Some(target) => Ok(Some((TargetRef::Defined(target), after))),
        None => Ok(None),
    }
}

/// The text behind `[]`, or all of it where no `[]` stands there.
#[tactic(auto, unfolding(doc_rules::specs::Links::behind_empty_label))]
fn behind_empty_label(rest: &str) -> &str
    ensures value { chars result.now ≡ behind_empty_label (chars rest.now) }
    ensures end { IsRest (chars result.now) (chars rest.now) }
{
    match word(rest, b"[]") {
        Some(after) => after,
        None => rest,
    }
}
