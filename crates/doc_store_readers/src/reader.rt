//! Readers.

ghost use Rattle.std.specs.Prelude.{◌≡◌, Some, IfOk};

use crate::groups::Groups;
use crate::page::Page;
use doc_page_parts::failure::Memory;
use doc_page_parts::heap::Heap;

/// Who reads: an owner, who sees and edits each page, or a reader who sees the pages of their
/// groups.
#[derive(Debug, PartialEq, Eq, Drop)]
pub struct Reader {
    pub owner: bool,
    pub groups: Groups,
}

impl Reader {
    ghost use Rattle.doc_store_readers.specs.Sites.{may_see};

    /// Whether the reader may see the page.
    pub fn may_see(&self, page: &Page) -> bool
        ensures { result ≡ may_see (Some self.now) page.now.page }
    {
        self.owner || self.groups.meets(page.groups())
    }

    pub fn copy(&self, heap: Heap) -> Result<Reader, Memory>
        ensures { IfOk result (λ copy. copy ≡ self.now) }
    {
        Ok(Reader {
            owner: self.owner,
            groups: self.groups.copy(heap)?,
        })
    }
}
