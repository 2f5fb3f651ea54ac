//! A linker that shows no link.

use doc_page_parts::failure::Memory;
use doc_page_parts::heap::Heap;
use doc_page_parts::linker::{Linker, Shown};

/// Shows no link.
pub struct Hides;

impl Linker for Hides {
    ghost use Rattle.doc_page_parts.specs.declared.linker.Shown.TheVariants.{Missing};

    ghost shown = { λ _ _. Missing };

    fn show(&self, _heap: Heap, _dest: &str) -> Result<Shown, Memory> {
        Ok(Shown::Missing)
    }
}
