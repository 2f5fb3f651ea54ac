//! Paths with anchors.

ghost use Rattle.std.specs.Prelude.{◌≡◌, ◌++◌, IfOk, codes};
ghost use Rattle.doc_page_encoding.specs.Encoding.{encoded};

use doc_page_encoding::encoding::push_encoded;
use doc_page_parts::failure::Memory;
use doc_page_parts::heap::{Heap, String};
use doc_page_parts::path::Path;
use doc_page_parts::text::Text;

/// A path and an anchor, as a reference to it is written.
pub fn with_anchor(heap: Heap, path: &Path, anchor: &Text) -> Result<Text, Memory>
    ensures { IfOk result (λ text. text ≡ path.now ++ codes "#" ++ encoded anchor.now) }
{
    let mut out = String::with_capacity(heap, room_of(path, anchor))?;
    out.push_str(path.text())?;
    out.push_str("#")?;
    push_encoded(&mut out, anchor.get())?;
    Ok(Text::new(out))
}

/// How many bytes these take, where none of the anchor has to be encoded: a guess, on which nothing rests.
fn room_of(path: &Path, anchor: &Text) -> usize {
    path.text()
        .len()
        .saturating_add(anchor.get().len())
        .saturating_add(1)
}
