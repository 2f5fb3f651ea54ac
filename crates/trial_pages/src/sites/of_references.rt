//! References that are resolved.

use crate::sites::given::two;
use crate::sites::stop::{Stop, written_made};
use doc_page_parts::heap::{Heap, String};
use doc_resolve::{Reference, resolve};

/// `BASE | REFERENCE`: the text of a reference, resolved on a base.
pub fn resolved(heap: Heap, given: &str) -> Result<String, Stop> {
    let (base, reference) = two(given)?;
    let base = Reference::parse(base);
    let resolved = resolve(heap, &base, &Reference::parse(reference))?;
    let text = resolved.text(heap);
    drop(resolved);
    written_made(heap, text)
}
