//! One pass over runs: each is closed as often as it has an opener before it, and then may open.
//!
//! The rules wrap, again and again, the first run that can close and has an opener, with the nearest such opener. One pass comes to the
//! same (the law `one_pass_gives_the_emphasis`). For each run in turn:
//!
//! 1. while it may close and delimiters are left of it, the nearest run that opens for it is sought, from the top of a stack of openers
//!    (`Openers::search`); where there is none, the note is made that for a closer of its kind none stands below here;
//! 2. the two become a pair (`pair`): one delimiter of each, or two, become a start and an end in place. The openers above leave the
//!    stack, since they stand between, and so does the opener where none of it is left;
//! 3. what is left of the run joins the stack, where it may open (`Openers::join`).
//!
//! An opener that a search looks at in vain leaves the stack, or isn't looked at again for a closer of that kind, of which there are 14: so
//! the time is linear in the number of delimiters.
ghost use Rattle.std.specs.Prelude.{◌≡◌, ◌<◌, ℕ, length, OnOk};
ghost use Rattle.doc_inlines_emphasis.specs.Marks.{ArePlaced};
ghost use Rattle.doc_inlines_emphasis.specs.PassSteps.{Stacked};
ghost use Rattle.doc_inlines_emphasis.specs.RunSteps.{all_placed};
ghost use Rattle.doc_inlines_emphasis.specs.Steps.{StandAt, GoesPast, IsWrapped};
ghost use Rattle.doc_inlines_emphasis.specs.Views.{marks_shown};

use crate::openers::Openers;
use crate::pair::pair;
use crate::run::Run;
use doc_inlines_marks::mark_ref::MarkRef;
use doc_page_parts::failure::Memory;
use doc_page_parts::heap::Vec;

/// The run of this number is closed as often as it has an opener.
fn close<'t, 'r>(
    marks: &mut Vec<MarkRef<'t, 'r>>,
    runs: &mut [Run],
    openers: &mut Openers,
    number: usize,
)
    requires stands { StandAt marks.old.items runs.old openers.old.numbers.items number }
    requires stacked { Stacked (all_placed runs.old) openers.old.numbers.items openers.old.bounds
        number }
    requires within { number < length runs.old }
    ensures past { GoesPast marks.old.items marks.new.items runs.old runs.new
        openers.old.numbers.items openers.new.numbers.items number }
    ensures stacked { Stacked (all_placed runs.new) openers.new.numbers.items openers.new.bounds
        number }
    ensures size { length runs.new ≡ length runs.old }
{
    if !runs[number].closes {
        return;
    }
    while runs[number].left > 0 {
        let Some(place) = openers.search(runs, number) else {
            return;
        };
        pair(marks, runs, openers, number, place);
    }
}

/// Each of the runs in turn.
pub(crate) fn pass<'t, 'r>(
    marks: &mut Vec<MarkRef<'t, 'r>>,
    runs: &mut [Run],
    openers: &mut Openers,
) -> Result<(), Memory>
    requires { ArePlaced (marks_shown marks.old.items) 0 (length marks.old.items)
        (all_placed runs.old) }
    ensures { OnOk result ((place : ℕ)
        → ArePlaced (marks_shown marks.old.items) place (length marks.old.items)
        (all_placed runs.old)
        → IsWrapped place marks.old.items marks.new.items runs.old) }
{
    openers.start();
    for number in 0..runs.len() {
        close(marks, runs, openers, number);
        openers.join(runs, number)?;
    }
    Ok(())
}
