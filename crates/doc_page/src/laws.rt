//! Laws of pages. Each function does nothing: its contract is the law.

ghost use Rattle.doc_page.specs.Laws.{PlainPagesAreCut};

/// Of the page of a plain text no HTML piece is empty, and no two stand side by side.
#[tactic(auto, using(crate::proofs::PieceLaws::plain_pages_are_cut))]
pub fn plain_pages_are_cut()
    ensures { PlainPagesAreCut }
{}
