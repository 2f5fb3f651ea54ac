//! Renderings as they are kept.

ghost use Rattle.std.specs.Prelude.{◌≡◌};
ghost use Rattle.doc_shelf_pages.specs.KeptPages.{kept_of, without_texts};

use doc_page_parts::heap::{Heap, Vec};
use doc_page_parts::list::List;
use doc_page_parts::rendered::Rendered;

/// A rendering as it is kept: with its texts, or without.
pub fn kept_of(heap: Heap, with_texts: bool, page: Rendered) -> Rendered
    ensures { result ≡ kept_of with_texts page }
{
    if with_texts {
        return page;
    }
    without_texts(heap, page)
}

/// A rendering without its texts, which are dropped.
fn without_texts(heap: Heap, page: Rendered) -> Rendered
    ensures { result ≡ without_texts page }
{
    let Rendered {
        pieces,
        headings,
        texts: _,
        images,
    } = page;
    Rendered {
        pieces,
        headings,
        texts: List::new(Vec::new(heap)),
        images,
    }
}
