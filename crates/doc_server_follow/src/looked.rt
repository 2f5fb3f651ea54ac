//! What a look at a journal tells.

use doc_page_parts::bytes::Bytes;
use doc_page_parts::list::List;

/// What a look at a journal tells, behind what was taken of it.
#[derive(Drop)]
pub enum Looked {
    /// No whole record stands there: its gate is closed, or the file ends within a record whose gate is open.
    Rests,
    /// The texts of the records that stand there, in their order. They are taken now. More may stand behind them.
    More(List<Bytes>),
    /// What was taken last no longer stands where it stood, or no gate stands behind it: the journal was made anew, or is another one.
    WentBack,
    /// Behind an open gate stands what is no record, and won't be one when the file grows.
    Damaged,
}
