//! Laws of conditions. Each function does nothing: its contract is the law.

ghost use Rattle.doc_http_conditions.specs.Laws.{HasOneReading, NoneAsked, ReadsTheGrammar, WeakIsNoMatch};

/// What is read is what the grammar of RFC 9110 writes (sections 5.6.1.2, 8.8.3, 13.1.1 and 13.1.2), and nothing else.
#[tactic(auto, using(crate::proofs::GrammarLaws::reads_the_grammar))]
pub fn values_are_read_by_the_grammar()
    ensures { ReadsTheGrammar }
{}

/// By the grammar a value has one reading.
#[tactic(auto, using(crate::proofs::GrammarLaws::has_one_reading))]
pub fn a_value_has_one_reading()
    ensures { HasOneReading }
{}

/// A weak tag is never the same as another by strong comparison, so it meets no If-Match.
#[tactic(auto, using(crate::proofs::LawSteps::weak_is_no_match))]
pub fn a_weak_tag_never_matches_strongly()
    ensures { WeakIsNoMatch }
{}

/// Without conditions a request is done, whatever stands: the tag of the page needn't be known.
#[tactic(auto, using(crate::proofs::LawSteps::none_asked))]
pub fn without_conditions_all_holds()
    ensures { NoneAsked }
{}
