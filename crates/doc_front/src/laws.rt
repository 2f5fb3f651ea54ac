//! Laws of the front of a text. The function does nothing: its contract is the law.
ghost use Rattle.doc_front.specs.Laws.{NoneKeeps};

/// Where no rule is set, a text is read as it stands.
#[tactic(auto, using(crate::proofs::FrontLaws::none_keeps))]
pub fn no_rule_keeps_a_text()
    ensures { NoneKeeps }
{}
