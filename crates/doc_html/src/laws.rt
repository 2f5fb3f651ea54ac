//! Laws of pages. The function does nothing: its contract is the law.
ghost use Rattle.doc_rules.specs.Laws.{RenderedIsCut};

/// Of the page of a text no HTML piece is empty, and no two stand side by side.
#[tactic(auto, using(doc_rules::proofs::PieceLaws::rendered_is_cut))]
pub fn pages_are_cut()
    ensures { RenderedIsCut }
{}
