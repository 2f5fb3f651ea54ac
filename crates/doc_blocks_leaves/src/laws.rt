//! The document of a text, read in one pass over its lines with one path of open blocks (the appendix of CommonMark 0.31.2): the
//! steps stand in `specs/`, and the law says that they give `doc_rules`' document.

ghost use Rattle.doc_blocks_leaves.specs.Laws.{OnePassSuffices};

/// One pass over the lines of a text gives its document, for every number of quotes and items that may be open at once.
#[tactic(auto, using(crate::proofs::OnePassLaws::one_pass_suffices))]
pub fn one_pass_gives_the_document()
    ensures { OnePassSuffices }
{}
