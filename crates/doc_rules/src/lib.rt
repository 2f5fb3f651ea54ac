//! The rules of this project's CommonMark renderer (CommonMark 0.31.2) and of its pages, as definitions that compute: they stand in
//! `specs/`, one file a subject. Each function here is empty: its contract is a law of the definitions.
#![tactic(auto)]

pub mod alignment;

ghost use Rattle.doc_rules.specs.Laws.{LinesJoin, PageLinesAgree, ColumnsSpell, ColumnsAreContiguous, TabsReachStops, FirstWins, AnchorsDiffer, AnchorsAreAsMany, HeadingsTakeAnchors, HeadingsHaveAnchors, EscapingIsByBytes, PiecesAreCut, RenderedIsCut, PiecesJoin, FillingIsByBytes, FilledPagesAreHtml, WrappingLeavesFewer, WrappingEnds, QuotedDocument, QuotedTree, RoomIsEnough, QuotedWithin};

/// The lines of a text join to it.
#[tactic(auto, using(crate::proofs::LineLaws::lines_join))]
pub fn lines_of_a_text_join()
    ensures { LinesJoin }
{}

/// `doc_page` reads the same lines, and takes the same endings off: there all characters of line endings at the end of a
/// line, here all from the first one on, which is the same in a line (2.1).
pub fn page_lines_agree()
    ensures { PageLinesAgree }
{}

/// The characters of the columns of a line are the line.
#[tactic(auto, using(crate::proofs::ColumnLaws::columns_spell))]
pub fn columns_spell_the_line()
    ensures { ColumnsSpell }
{}

/// A character's first column is the sum of the widths before it.
#[tactic(auto, using(crate::proofs::ColumnLaws::columns_are_contiguous))]
pub fn columns_are_contiguous()
    ensures { ColumnsAreContiguous }
{}

/// A tab ends at a multiple of 4, 1 to 4 columns further on; another character has one column.
#[tactic(auto, using(crate::proofs::ColumnLaws::tabs_reach_stops))]
pub fn tabs_reach_stops()
    ensures { TabsReachStops }
{}

/// A later definition never replaces an earlier one.
#[tactic(auto, using(crate::proofs::DefinitionLaws::first_wins))]
pub fn the_first_definition_wins()
    ensures { FirstWins }
{}

/// The anchors of a page are pairwise distinct.
#[tactic(auto, using(crate::proofs::AnchorLaws::anchors_differ))]
pub fn anchors_are_distinct()
    ensures { AnchorsDiffer }
{}

/// There are as many anchors as headings.
#[tactic(auto, using(crate::proofs::HeadingLaws::anchors_are_as_many))]
pub fn anchors_are_as_many()
    ensures { AnchorsAreAsMany }
{}

/// Writing blocks takes one anchor for each of their headings.
#[tactic(auto, using(crate::proofs::HeadingLaws::headings_take_anchors))]
pub fn headings_take_anchors()
    ensures { HeadingsTakeAnchors }
{}

/// A page lists the headings of its document in order, each with its anchor.
#[tactic(auto, using(crate::proofs::HeadingLaws::headings_have_anchors))]
pub fn headings_have_anchors()
    ensures { HeadingsHaveAnchors }
{}

/// Escaping the characters of a text is escaping its bytes in UTF-8.
#[tactic(auto, using(crate::proofs::EscapingLaws::escaping_is_by_bytes))]
pub fn escaping_is_by_bytes()
    ensures { EscapingIsByBytes }
{}

/// No HTML piece is empty, and no two stand side by side.
#[tactic(auto, using(crate::proofs::PieceLaws::pieces_are_cut))]
pub fn pieces_are_cut()
    ensures { PiecesAreCut }
{}

/// The same of the pieces of a text's page in UTF-8.
#[tactic(auto, using(crate::proofs::PieceLaws::rendered_is_cut))]
pub fn rendered_pieces_are_cut()
    ensures { RenderedIsCut }
{}

/// The pieces joined are what was written.
#[tactic(auto, using(crate::proofs::PieceLaws::pieces_join))]
pub fn pieces_join()
    ensures { PiecesJoin }
{}

/// Filling a page in UTF-8 with its links, as `doc_page` does, is filling it as characters.
#[tactic(auto, using(crate::proofs::FillingLaws::filling_is_by_bytes))]
pub fn filling_is_by_bytes()
    ensures { FillingIsByBytes }
{}

/// The page of a text, filled with its links, is the text as HTML in UTF-8.
#[tactic(auto, using(crate::proofs::FillingLaws::filled_pages_are_html))]
pub fn filled_pages_are_html()
    ensures { FilledPagesAreHtml }
{}

/// Wrapping a pair of delimiter runs leaves fewer delimiters.
#[tactic(auto, using(crate::proofs::EmphasisLaws::wrapping_leaves_fewer))]
pub fn wrapping_leaves_fewer()
    ensures { WrappingLeavesFewer }
{}

/// When wrapping ends, no delimiter run has an opener.
#[tactic(auto, using(crate::proofs::EmphasisLaws::wrapping_ends))]
pub fn wrapping_ends()
    ensures { WrappingEnds }
{}

/// The document of a quoted text is one quote over the document of the text with room for one container fewer (5.1).
#[tactic(auto, using(crate::proofs::QuoteLaws::quoted_document))]
pub fn a_quoted_document_is_a_quote()
    ensures { QuotedDocument }
{}

/// The same of the tree of lines, before there are lists.
#[tactic(auto, using(crate::proofs::QuoteLaws::quoted_tree))]
pub fn a_quoted_tree_is_a_quote()
    ensures { QuotedTree }
{}

/// Room for containers that isn't used doesn't matter.
#[tactic(auto, using(crate::proofs::RoomLaws::room_is_enough))]
pub fn room_is_enough()
    ensures { RoomIsEnough }
{}

/// A quoted document is one quote over the document, where that opens at most 99 quotes and items at once.
#[tactic(auto, using(crate::proofs::RoomLaws::quoted_within))]
pub fn a_quoted_document_within_room_is_a_quote()
    ensures { QuotedWithin }
{}
