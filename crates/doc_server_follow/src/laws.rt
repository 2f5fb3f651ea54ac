//! Laws of journals that are followed. A call of one does nothing; its contract is the law.

ghost use Rattle.doc_server_follow.specs.Laws.{StaysInOrder, GrownNeverGoesBack, RestsAtTheEnd};

/// What is taken of a journal stays in order: behind the records that were taken come those that a look tells.
pub fn what_is_taken_stays_in_order()
    ensures { StaysInOrder }
{}

/// A journal that only grew never goes back.
pub fn a_grown_journal_never_goes_back()
    ensures { GrownNeverGoesBack }
{}

/// A look rests where all records were taken: none is missed.
pub fn a_look_rests_at_the_end()
    ensures { RestsAtTheEnd }
{}
