//! A name.

use doc_index_tables::row::Row;

/// What is kept of a text that has a number: the number, and the slots that use the text.
#[derive(Drop)]
pub struct Name {
    pub(crate) number: usize,
    /// A slot that uses the text stands here. With which number says nothing.
    pub(crate) slots: Row,
}
