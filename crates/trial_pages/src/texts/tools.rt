//! What the calls share.

use doc_lines::entities::Entities;
use doc_page_parts::failure::Memory;
use doc_page_parts::heap::{Heap, String};
use std::fmt::Debug;
use trial::answer::shown;

/// The heap and the names of entities.
#[derive(Clone, Copy)]
pub struct Tools<'a> {
    pub heap: Heap,
    pub entities: &'a Entities,
}

/// What is printed for a value, where memory did not run out for it.
pub fn shown_made<T: Debug + Drop>(heap: Heap, made: Result<T, Memory>) -> Result<String, Memory> {
    shown(heap, made?)
}

/// What comes of a change that had no memory: it is told where all is as before, and else the answer is `false`.
pub fn refused(is_as_before: bool) -> Result<bool, Memory> {
    if is_as_before { Err(Memory) } else { Ok(false) }
}
