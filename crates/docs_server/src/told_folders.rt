//! The command `folders`: which files of a configuration's folders are bad.

use crate::listen_fault::ListenFault;
use crate::status::status_of;
use doc_page_parts::heap::Heap;
use doc_server_config::bad_file::BadFile;
use doc_server_files::bounded::read_all_folders;
use doc_server_files::folder_rows::FolderRows;
use doc_server_streams::fault::Fault;
use doc_server_streams::output::Output;
use doc_server_streams::whole_output::{flush, send};
use doc_server_streams::write_to::WriteTo;
use std::io;
use std::rt::Files;

/// Runs `folders`, and answers the status to end with: 1 where a file is bad.
pub fn run_folders<P: AllocGlobal + Clone + Drop + Eprint + Files + Print>(
    rt: &P,
    config: &str,
) -> u8 {
    status_of(rt, folders_with(rt, config))
}

/// The same, as a result.
fn folders_with<P: AllocGlobal + Clone + Drop + Eprint + Files + Print>(
    rt: &P,
    config: &str,
) -> Result<u8, ListenFault> {
    let found = read_all_folders(rt, config)?;
    tell(rt.alloc(), &found, &mut WriteTo::new(io::writer(rt)))?;
    if found.bad.is_empty() {
        return Ok(0);
    }
    Ok(1)
}

/// Writes a line for each bad file, and how many files there are.
fn tell<O: Output>(heap: Heap, found: &FolderRows, output: &mut O) -> Result<(), Fault> {
    for bad in found.bad.as_slice() {
        tell_bad(heap, bad, output)?;
    }
    let pages = found.rows.len();
    let media = found.media.len();
    let bad = found.bad.len();
    let line = format!(in heap; "{pages} pages, {media} media, {bad} bad\n")?;
    send(output, line.as_bytes())?;
    flush(output)
}

/// Writes the line of a bad file.
fn tell_bad<O: Output>(heap: Heap, bad: &BadFile, output: &mut O) -> Result<(), Fault> {
    let line = format!(in heap; "{bad}\n")?;
    send(output, line.as_bytes())
}

/// Prints which bad files are passed over.
pub fn tell_passed<P: Eprint>(rt: &P, passed: &[BadFile]) {
    for bad in passed {
        let _ = eprintln!(rt; "docs_server: passed over {bad}");
    }
}
