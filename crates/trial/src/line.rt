//! Lines of standard input.

use crate::written::text_of;
use doc_page_parts::failure::Memory;
use doc_page_parts::heap::{Heap, String};

/// A line of input.
#[derive(Drop)]
pub enum Line<'a> {
    /// An empty line or a comment.
    Comment,
    /// The name of a call, and what it is given.
    Call { name: &'a str, given: String },
    /// What is given is not written as the head of this crate says.
    Wrong,
}

/// What a line of input is.
pub fn read_line<'a>(heap: Heap, line: &'a str) -> Result<Line<'a>, Memory> {
    if line.is_empty() || line.starts_with('#') {
        return Ok(Line::Comment);
    }
    let Some((name, given)) = line.split_once(' ') else {
        return Ok(Line::Call {
            name: line,
            given: String::new(heap),
        });
    };
    match text_of(heap, given)? {
        Some(given) => Ok(Line::Call { name, given }),
        None => Ok(Line::Wrong),
    }
}
