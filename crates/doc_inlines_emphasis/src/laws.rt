//! Emphasis in one pass over the delimiter runs (the procedure "process emphasis" in the appendix of CommonMark 0.31.2): the
//! definitions stand in `specs/`, and the laws say that they give `doc_rules`' emphasis.

ghost use Rattle.doc_inlines_emphasis.specs.InPlace.{InPlaceSuffices};
ghost use Rattle.doc_inlines_emphasis.specs.Laws.{OnePassSuffices, BoundsSuffice, BracketsAreText, IdleRunsAreText};

/// One pass over the inlines wraps what wrapping the first run that has an opener wraps, again and again.
#[tactic(auto, using(crate::proofs::OnePassLaws::one_pass_suffices))]
pub fn one_pass_gives_the_emphasis()
    ensures { OnePassSuffices }
{}

/// A search for an opener that ends at the lower bound of the closer's kind finds the nearest opener.
#[tactic(auto, using(crate::proofs::BoundLaws::bounds_suffice))]
pub fn bounds_pass_over_no_opener()
    ensures { BoundsSuffice }
{}

/// Emphasis in place, on one list of marks with a stack of openers, makes the emphasis of what is seen in the marks.
#[tactic(auto, using(crate::proofs::InPlaceLaws::in_place_suffices))]
pub fn in_place_gives_the_emphasis()
    ensures { InPlaceSuffices }
{}

/// Brackets as text have the emphasis that they have as brackets.
#[tactic(auto, using(crate::proofs::BracketLaws::brackets_are_text))]
pub fn brackets_are_text_to_emphasis()
    ensures { BracketsAreText }
{}

/// Runs that may neither open nor close, as text, change nothing in the emphasis.
#[tactic(auto, using(crate::proofs::IdleRuns::idle_runs_are_text))]
pub fn idle_runs_are_text_to_emphasis()
    ensures { IdleRunsAreText }
{}
