//! The terms that people search for.

use doc_words_search::word::Word;

/// What a word of a page has to be, or to begin with.
#[derive(Drop)]
pub enum Term {
    /// This word alone.
    Exact(Word),
    /// Each word that begins with it.
    Prefix(Word),
}
