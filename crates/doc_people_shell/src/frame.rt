//! What every page for people is made with.

use doc_page_parts::heap::Heap;
use doc_people::settings::{Browse, Offers};

/// What every page for people is made with, beside what its reader sees.
#[derive(Clone, Copy)]
pub struct Frame<'a> {
    pub heap: Heap,
    /// How the pages are set.
    pub browse: &'a Browse,
    /// What is offered to whoever asks.
    pub offers: Offers,
}
