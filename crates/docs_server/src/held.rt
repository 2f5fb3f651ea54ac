//! Descriptors of standard streams that are closed.

use doc_page_parts::heap::Heap;
use doc_server_files::files::open_file;
use doc_server_streams::fault::Fault;
use doc_server_streams::read_from::ReadFrom;
use std::rt::Files;

/// A file, opened three times to be read. Where standard input, output or error is closed the system gives its descriptor to the next
/// file that is opened: to one of these, in which nothing can be written, and so to no journal.
#[derive(Drop)]
pub struct Held<F: Drop> {
    _first: ReadFrom<F>,
    _second: ReadFrom<F>,
    _third: ReadFrom<F>,
}

/// Holds a file of this name.
pub fn hold<R: Files>(rt: &R, heap: Heap, name: &str) -> Result<Held<R::File>, Fault> {
    Ok(Held {
        _first: open_file(rt, heap, name)?,
        _second: open_file(rt, heap, name)?,
        _third: open_file(rt, heap, name)?,
    })
}
