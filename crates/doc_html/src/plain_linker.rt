//! The linker of the specification's examples.
ghost use Rattle.doc_html.specs.PlainLinks.{plain_shown};

use crate::destinations::url;
use doc_page_parts::failure::Memory;
use doc_page_parts::heap::Heap;
use doc_page_parts::linker::{Linker, Shown};

/// Shows each destination as it stands, escaped, as in the examples of CommonMark 0.31.2.
#[derive(Clone, Copy)]
pub struct PlainLinker;

impl Linker for PlainLinker {
    ghost shown = { λ _. plain_shown };

    #[tactic(auto, unfolding(crate::specs::PlainLinks::plain_shown))]
    fn show(&self, heap: Heap, dest: &str) -> Result<Shown, Memory> {
        let href = url(heap, dest)?;
        Ok(Shown::Href(href))
    }
}
