//! Why a line has no answer.

use doc_page_parts::failure::Memory;
use doc_page_parts::heap::{Heap, String};
use std::alloc::{AllocError, AllocFailed};
use std::fmt::Debug;
use trial::answer::shown;

/// Why a line has no answer.
#[derive(Clone, Copy)]
pub enum Stop {
    /// The call had no memory.
    Refused,
    /// No memory was left for what is printed, perhaps behind the call.
    Memory,
    /// The line is no call.
    NoCall,
}

impl From<Memory> for Stop {
    fn from(_e: Memory) -> Stop {
        Stop::Refused
    }
}

impl From<AllocError> for Stop {
    fn from(_e: AllocError) -> Stop {
        Stop::Memory
    }
}

impl<T: Drop> From<AllocFailed<T>> for Stop {
    fn from(_e: AllocFailed<T>) -> Stop {
        Stop::Memory
    }
}

/// What is printed for what a call answers or is refused for, which may be want of memory.
pub fn answered<T: Copy + Debug + Drop, E: Copy + Debug + Drop + PartialEq>(
    heap: Heap,
    answer: Result<T, E>,
    memory: E,
) -> Result<String, Stop> {
    match answer {
        Err(error) if error == memory => Err(Stop::Refused),
        _ => written(heap, answer),
    }
}

/// What is printed for a value.
pub fn written<T: Debug + Drop>(heap: Heap, value: T) -> Result<String, Stop> {
    match shown(heap, value) {
        Ok(text) => Ok(text),
        Err(Memory) => Err(Stop::Memory),
    }
}

/// The same, where memory did not run out for it.
pub fn written_made<T: Debug + Drop>(heap: Heap, made: Result<T, Memory>) -> Result<String, Stop> {
    written(heap, made?)
}

/// What is printed for a value that is written so.
pub fn told(heap: Heap, text: &str) -> Result<String, Stop> {
    Ok(String::from_str(heap, text)?)
}

/// What is printed for whether something is so.
pub fn told_whether(heap: Heap, is_so: bool) -> Result<String, Stop> {
    told(heap, if is_so { "true" } else { "false" })
}
