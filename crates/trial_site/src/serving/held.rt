//! The file that the calls have.

use crate::given::bytes_of;
use crate::stop::Stop;
use doc_page_parts::failure::Memory;
use doc_page_parts::heap::{Heap, String, Vec};
use trial::answer::{no_call, shown};

/// Has the file hold the bytes of a text.
pub fn held(heap: Heap, given: &str, file: &mut Vec<u8>) -> Result<String, Memory> {
    match bytes_of(heap, given) {
        Ok(bytes) => {
            *file = bytes;
            shown(heap, ())
        }
        Err(Stop::Memory) => Err(Memory),
        Err(_) => no_call(heap),
    }
}

/// Has the file hold these bytes. Without memory for them it is as it was.
pub fn replace(heap: Heap, file: &mut Vec<u8>, bytes: &[u8]) -> Result<(), Memory> {
    *file = Vec::from_slice(heap, bytes)?;
    Ok(())
}
