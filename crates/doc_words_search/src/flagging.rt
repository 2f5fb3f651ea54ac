//! The slots of the pages that are told to be seen.

ghost use Rattle.std.specs.Prelude.{◌≡◌, IfOk};
ghost use Rattle.doc_words_search.specs.SearchSteps.{flagged};

use doc_page_parts::failure::Memory;
use doc_page_parts::heap::{Heap, Vec};

/// Of these slots, those whose flags are set: each flag is that of the slot at its place. A slot without a flag is none of them.
pub fn slots_flagged(heap: Heap, slots: &[u64], flags: &[bool]) -> Result<Vec<u64>, Memory>
    ensures { IfOk result (λ seen. seen.items ≡ flagged flags.now slots.now) }
{
    let mut seen = Vec::with_capacity(heap, slots.len())?;
    for (slot, flag) in slots.iter().zip(flags) {
        if !*flag {
            continue;
        }
        seen.push(*slot)?;
    }
    Ok(seen)
}
