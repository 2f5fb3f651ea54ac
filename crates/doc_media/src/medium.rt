//! Media.

use crate::kind::MediaKind;
use doc_page_parts::bytes::Bytes;
use doc_page_parts::failure::Memory;
use doc_page_parts::heap::Heap;
use doc_store_readers::groups::Groups;
use doc_store_readers::reader::Reader;

/// A medium: the groups whose readers may see it, its kind and its bytes.
#[derive(Debug, Drop)]
pub struct Medium {
    pub groups: Groups,
    pub kind: MediaKind,
    pub bytes: Bytes,
}

impl Medium {
    ghost use Rattle.std.specs.Prelude.{◌≡◌, IfOk, Some};
    ghost use Rattle.doc_media.specs.Held.{page_of};
    ghost use Rattle.doc_store_readers.specs.Sites.{may_see};

    /// Whether the reader may see the medium.
    pub fn is_seen_by(&self, reader: &Reader) -> bool
        ensures { result ≡ may_see (Some reader.now) (page_of self.now) }
    {
        reader.owner || reader.groups.meets(&self.groups)
    }

    pub fn copy(&self, heap: Heap) -> Result<Medium, Memory>
        ensures { IfOk result (λ copy. copy ≡ self.now) }
    {
        Ok(Medium {
            groups: self.groups.copy(heap)?,
            kind: self.kind,
            bytes: Bytes::copy_of(heap, self.bytes.get())?,
        })
    }
}
