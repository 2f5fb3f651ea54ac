//! Copies of readers.

ghost use Rattle.std.specs.Prelude.{◌≡◌, IfOk};
ghost use Rattle.doc_store_readers.specs.Readers.{by_keys, by_tokens};

use crate::reader::Reader;
use doc_page_parts::failure::Memory;
use doc_page_parts::heap::{BTreeMap, Heap, String};

/// The same readers by the same tokens.
pub fn copy_named(
    heap: Heap,
    readers: &BTreeMap<String, Reader>,
) -> Result<BTreeMap<String, Reader>, Memory>
    ensures { IfOk result (λ copies. by_tokens copies.entries ≡ by_tokens readers.now.entries) }
{
    let mut copies = BTreeMap::new(heap);
    for (token, reader) in readers.iter() {
        let written = String::from_str(heap, token.as_str())?;
        let copy = reader.copy(heap)?;
        copies.insert(written, copy)?;
    }
    Ok(copies)
}

/// The same readers by the same digests.
pub fn copy_of_digests(
    heap: Heap,
    readers: &BTreeMap<[u8; 32], Reader>,
) -> Result<BTreeMap<[u8; 32], Reader>, Memory>
    ensures { IfOk result (λ copies. by_keys copies.entries ≡ by_keys readers.now.entries) }
{
    let mut copies = BTreeMap::new(heap);
    for (digest, reader) in readers.iter() {
        let copy = reader.copy(heap)?;
        copies.insert(*digest, copy)?;
    }
    Ok(copies)
}
