//! Laws of steps and of runs, as contracts of functions that do nothing.

ghost use Rattle.doc_server_listen.specs.Counting.{EditsAreCounted};
ghost use Rattle.doc_server_listen.specs.Edits.{TellsRemovalsAlone};
ghost use Rattle.doc_server_listen.specs.OnlyReads.{StepsThatReadLeaveTheSite};

/// Where no puts are taken a step tells no edit but a removal.
#[tactic(auto, using(crate::proofs::Removals::tells_removals_alone))]
pub fn steps_tell_removals_alone()
    ensures { TellsRemovalsAlone }
{}

/// No run of peers' events leaves more pages than may stand. Where no puts are taken it removes a page for each of its edits, whose
/// lines are short.
#[tactic(auto, using(crate::proofs::Counting::edits_are_counted))]
pub fn edits_are_counted()
    ensures { EditsAreCounted }
{}

/// A step of a request that only reads, or of none, leaves the site, its media, the count of its puts and the readers as they were.
pub fn steps_that_read_leave_the_site()
    ensures { StepsThatReadLeaveTheSite }
{}
