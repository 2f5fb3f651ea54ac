//! Which row gives a path.

use crate::rows::Rows;
use doc_page_parts::failure::Memory;
use doc_page_parts::heap::Heap;
use doc_page_parts::text::Text;
use doc_server_lint_faults::what::What;

/// The paths that the pages and the folders of a configuration give.
#[derive(Drop)]
pub struct Sources {
    pages: Rows,
    folders: Rows,
}

impl Sources {
    pub fn none(heap: Heap) -> Sources {
        Sources {
            pages: Rows::none(heap),
            folders: Rows::none(heap),
        }
    }

    /// Says that a page gives a path. Of two pages the later one stands.
    pub fn add_page(&mut self, heap: Heap, path: &str, page: usize) -> Result<(), Memory> {
        self.pages.insert(Text::copy_of(heap, path)?, page)
    }

    /// Says that a folder gives a path, and answers what is told where a page or a folder gave it before. The first one that did stands.
    pub fn add_of_folder(
        &mut self,
        heap: Heap,
        path: &str,
        folder: usize,
    ) -> Result<Option<What>, Memory> {
        let path = Text::copy_of(heap, path)?;
        if let Some(page) = self.pages.row_of(&path) {
            return Ok(Some(What::PathOfPage(path, page)));
        }
        if let Some(other) = self.folders.row_of(&path) {
            return Ok(Some(What::PathOfFolder(path, other)));
        }
        self.folders.insert(path, folder)?;
        Ok(None)
    }
}
