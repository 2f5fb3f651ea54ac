//! A pair of runs, in place: the last delimiters that are left of one and the first ones of the other become a start and an end.
ghost use Rattle.std.specs.Prelude.{◌≡◌, ℕ, ◌+◌, ◌<◌, ◌≤◌, ◌^◌, length, slice_set, Some};
ghost use Rattle.doc_inlines_emphasis.specs.InPlace.{paired};
ghost use Rattle.doc_inlines_emphasis.specs.Openers.{NearestIs};
ghost use Rattle.doc_inlines_emphasis.specs.NumberSteps.{numbered, run_numbered, paired_runs};
ghost use Rattle.doc_inlines_emphasis.specs.PassSteps.{OneOrTwo, Stacked};
ghost use Rattle.doc_inlines_emphasis.specs.RunSteps.{delimiter, all_placed};
ghost use Rattle.doc_inlines_emphasis.specs.Steps.{Keeps, StandAt, GoesOn};
ghost use Rattle.doc_inlines_emphasis.specs.Views.{marks_shown};

use crate::delimiter::Delimiter;
use crate::openers::Openers;
use crate::run::{Run, span};
use doc_inlines_marks::mark_ref::{MarkRef, SpanRef};
use doc_page_parts::heap::Vec;
use std::alloc::Allocator;

/// Sets the item at this place. It is written for items of any type, since the prover doesn't follow what is written into a list of
/// marks by its place: a mark has references to what has references.
pub(crate) fn put<T: Copy, A: Allocator>(items: &mut std::vec::Vec<T, A>, at: usize, item: T)
    requires { at < length items.old.items }
    ensures { items.new.items ≡ slice_set items.old.items at item }
{
    items[at] = item;
}

/// So many of a delimiter from each of two places on become a start and an end. Of two the second is an empty text then.
fn write_ends<'t, 'r>(
    marks: &mut Vec<MarkRef<'t, 'r>>,
    opening: usize,
    closing: usize,
    own: Delimiter,
    taken: usize,
)
    requires taken { OneOrTwo taken }
    requires order { opening + taken ≤ closing }
    requires within { closing + taken ≤ length marks.old.items }
    ensures shown { marks_shown marks.new.items
        ≡ paired (marks_shown marks.old.items) opening closing (delimiter own) taken }
    ensures keeps { (place : ℕ) → place ≤ opening → Keeps place marks.old.items marks.new.items }
{
    let span: SpanRef<'t, 'r> = span(own, taken);
    put(marks, opening, MarkRef::Start(span));
    put(marks, closing, MarkRef::End(span));
    if taken != 2 {
        return;
    }
    put(marks, opening + 1, MarkRef::Text(""));
    put(marks, closing + 1, MarkRef::Text(""));
}

/// So many delimiters are taken of the runs of these two numbers.
fn take_delimiters(runs: &mut [Run], opener: usize, closer: usize, taken: usize)
    requires order { opener < closer }
    requires within { closer < length runs.old }
    requires of_opener { taken ≤ (run_numbered (all_placed runs.old) opener).left }
    requires of_closer { taken ≤ (run_numbered (all_placed runs.old) closer).left }
    requires fits { (numbered (all_placed runs.old) closer).first + taken < 2 ^ 64 }
    ensures { all_placed runs.new ≡ paired_runs (all_placed runs.old) opener closer taken }
{
    let opens = runs[opener];
    let closes = runs[closer];
    runs[opener] = Run {
        left: opens.left - taken,
        ..opens
    };
    runs[closer] = Run {
        first: closes.first + taken,
        left: closes.left - taken,
        ..closes
    };
}

/// The opener at this place of the stack, which is the nearest, and the run of this number become a pair.
pub(crate) fn pair<'t, 'r>(
    marks: &mut Vec<MarkRef<'t, 'r>>,
    runs: &mut [Run],
    openers: &mut Openers,
    number: usize,
    place: usize,
)
    requires stands { StandAt marks.old.items runs.old openers.old.numbers.items number }
    requires stacked { Stacked (all_placed runs.old) openers.old.numbers.items openers.old.bounds
        number }
    requires within { number < length runs.old }
    requires left { 1 ≤ (run_numbered (all_placed runs.old) number).left }
    requires nearest { NearestIs (run_numbered (all_placed runs.old)) openers.old.numbers.items
        (run_numbered (all_placed runs.old) number) (Some place) }
    ensures goes { GoesOn marks.old.items marks.new.items runs.old runs.new
        openers.old.numbers.items openers.new.numbers.items number }
    ensures stands { StandAt marks.new.items runs.new openers.new.numbers.items number }
    ensures stacked { Stacked (all_placed runs.new) openers.new.numbers.items openers.new.bounds
        number }
    ensures size { length runs.new ≡ length runs.old }
    ensures closes { (run_numbered (all_placed runs.new) number).closes
        ≡ (run_numbered (all_placed runs.old) number).closes }
    ensures less { (run_numbered (all_placed runs.new) number).left
        < (run_numbered (all_placed runs.old) number).left }
{
    let opener = openers.numbers[place];
    let opens = runs[opener];
    let closes = runs[number];
    let taken = opens.strength(closes);
    write_ends(
        marks,
        opens.first + (opens.left - taken),
        closes.first,
        closes.delimiter,
        taken,
    );
    take_delimiters(runs, opener, number, taken);
    openers.keep(place, taken < opens.left);
}
