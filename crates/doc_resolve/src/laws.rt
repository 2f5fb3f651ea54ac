//! Laws of links. The functions do nothing: their contracts are the laws.

ghost use Rattle.doc_resolve.specs.Laws.{DecisionsAreGoals, LinksAreDecided};

/// What readers see of a page depends on them by its decisions alone, so a filled page may be kept under these.
#[tactic(auto, using(crate::proofs::DecisionLaws::links_are_decided))]
pub fn links_are_decided()
    ensures { LinksAreDecided }
{}

/// A page's decisions are the goals of what its links lead to, so what they lead to may be kept for all readers.
#[tactic(auto, using(crate::proofs::DecisionLaws::decisions_are_goals))]
pub fn decisions_are_goals()
    ensures { DecisionsAreGoals }
{}
