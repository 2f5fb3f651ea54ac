//! Where the texts of leaf blocks stand.
ghost use Rattle.std.specs.Prelude.{◌≡◌, IfOk};

use crate::table_lines::TableLines;
use bumpalo::Bump;
use doc_page_parts::failure::Memory;
use doc_page_parts::heap::Heap;

/// Where the texts of a document's leaf blocks stand, until all go at once. It takes memory in blocks that grow.
pub struct Texts {
    texts: Bump<Heap>,
}

/// Written out, so that it is proved here once.
impl Drop for Texts {
    fn drop(self) {
        let Texts { texts: _ } = self;
    }
}

impl Texts {
    /// It holds nothing, and takes no memory.
    pub fn new(heap: Heap) -> Texts {
        Texts {
            texts: Bump::new(heap),
        }
    }

    /// A text with the same bytes, where it stays.
    pub fn keep(&self, text: &str) -> Result<&str, Memory>
        ensures { IfOk result (λ kept. kept.now ≡ text.now) }
    {
        match self.texts.try_alloc_str(text) {
            Ok(kept) => Ok(kept),
            Err(_) => Err(Memory),
        }
    }

    /// The lines of a table, where they stay.
    pub fn keep_lines<'t>(&'t self, lines: TableLines<'t>) -> Result<&'t TableLines<'t>, Memory>
        ensures { IfOk result (λ kept. kept.now ≡ lines.entry) }
    {
        match self.texts.try_alloc(lines) {
            Ok(kept) => Ok(kept),
            Err(_) => Err(Memory),
        }
    }
}
