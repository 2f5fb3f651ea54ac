//! Laws of tables in the text of a paragraph. The functions do nothing: their contracts are the laws.
ghost use Rattle.doc_tables.specs.Laws.{GrowsByLines, GrowsByTexts, LinesJoin, StandsForItself, TwoLinesBegin};

/// A cell that has no `|` behind a backslash is read as it stands.
#[tactic(auto, using(crate::proofs::TableLaws::stands_for_itself))]
pub fn a_cell_stands_for_itself()
    ensures { StandsForItself }
{}

/// A header and a delimiter row begin a table whatever stands behind them, and its columns are theirs.
#[tactic(auto, using(crate::proofs::TableLaws::two_lines_begin))]
pub fn two_lines_begin_a_table()
    ensures { TwoLinesBegin }
{}

/// With more lines, a paragraph has a table where it had one, or where one begins in its last line and those behind it.
#[tactic(auto, using(crate::proofs::TableLaws::grows_by_lines))]
pub fn lines_keep_or_begin_a_table()
    ensures { GrowsByLines }
{}

/// The same of texts.
#[tactic(auto, using(crate::proofs::TextLaws::grows_by_texts))]
pub fn texts_keep_or_begin_a_table()
    ensures { GrowsByTexts }
{}

/// A text behind another and a LF has its lines behind those of the other.
#[tactic(auto, using(crate::proofs::TableLaws::lines_join))]
pub fn lines_of_texts_join()
    ensures { LinesJoin }
{}
