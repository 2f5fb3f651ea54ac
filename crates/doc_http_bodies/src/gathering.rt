//! The data of the chunks of a whole body.

ghost use Rattle.std.specs.Prelude.{◌≡◌, ◌<◌, ◌++◌, length, IfOk, IfSome, None, []};
ghost use Rattle.doc_http_bodies.specs.Chunks.{data_of};

use crate::size_line::{SizeLine, size_line};
use crate::slices::{behind, front};
use doc_page_parts::bytes::Bytes;
use doc_page_parts::failure::Memory;
use doc_page_parts::heap::{Heap, Vec};

/// The data of the chunks, joined, which are `len` bytes.
pub fn gather(heap: Heap, encoded: &[u8], len: usize) -> Result<Bytes, Memory>
    ensures { IfOk result (λ joined. joined ≡ data_of encoded.now) }
{
    let mut joined = Bytes::new(Vec::with_capacity(heap, len)?);
    let mut rest = encoded;
    'chunks: while let Some((chunk, left)) = first_chunk(rest) {
        joined.extend(chunk)?;
        rest = left;
    }
    Ok(joined)
}

/// The data of the first chunk, and the bytes behind the chunk: none where the last chunk stands there.
fn first_chunk(text: &[u8]) -> Option<(&[u8], &[u8])>
    ensures found { IfSome result (λ found.
        (data_of text.now ≡ found.0.now ++ data_of found.1.now)
        × (length found.1.now < length text.now)) }
    ensures last { result ≡ None → data_of text.now ≡ [] }
{
    let SizeLine::Size { len, size } = size_line(text, 0) else {
        return None;
    };
    if size == 0 {
        return None;
    }
    let text = behind(text, len);
    Some((front(text, size), behind(text, size + 2)))
}
