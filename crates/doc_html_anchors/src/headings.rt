//! The anchors of all headings of a page.
ghost use Rattle.std.specs.Prelude.{◌≡◌, chars, map, IfOk};
ghost use Rattle.doc_rules.specs.Anchors.{anchors_of};

use crate::used::Anchors;
use doc_page_parts::failure::Memory;
use doc_page_parts::heap::{Heap, Vec};
use doc_page_parts::list::List;
use doc_page_parts::text::Text;

/// The anchors of headings with these plain texts, in their order.
pub fn anchors_of(heap: Heap, texts: &[Text]) -> Result<List<Text>, Memory>
    ensures { IfOk result (λ anchors. map chars anchors ≡ anchors_of (map chars texts.now)) }
{
    let mut out = Vec::with_capacity(heap, texts.len())?;
    let mut anchors = Anchors::new(heap);
    'headings: for text in texts {
        let anchor = anchors.next(heap, text.get())?;
        out.push(anchor)?;
    }
    Ok(List::new(out))
}
