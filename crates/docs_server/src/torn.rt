//! What was torn at the end of a journal, kept beside it.

use doc_page_parts::heap::{Heap, String};
use doc_server_journal::clock::seconds_of;
use doc_server_journal::file_fault::FileFault;
use doc_server_journal::torn::KeepTorn;
use std::fs::{File, OpenOptions};
use std::io::Write;
use std::os::unix::fs::OpenOptionsExt;
use std::rt::{Clock, Files};

/// What is put behind the name of a journal for that of the file with what was torn.
const TORN: &str = ".torn";

/// The rights of that file: they are those of a journal.
const OWNER_ALONE: u32 = 0o600;

/// Adds what was torn to the file of a journal's name with `.torn` behind it, and tells it.
#[derive(Clone, Copy, Drop)]
pub struct TornFile<'a, P> {
    pub rt: &'a P,
    pub heap: Heap,
    pub name: &'a str,
}

impl<P: Clock + Eprint + Files<File = File>> KeepTorn for TornFile<'_, P> {
    fn keep(&mut self, records: usize, bytes: &[u8]) {
        let number = records.saturating_add(1);
        let len = bytes.len();
        let name = self.name;
        let _ = match add(self, number, bytes) {
            Ok(()) => eprintln!(self.rt;
                "docs_server: record {number} was torn; {len} bytes kept in {name}.torn"
            ),
            Err(_) => {
                eprintln!(self.rt; "docs_server: record {number} was torn; {len} bytes not kept")
            }
        };
    }
}

/// Adds the bytes to the file, behind a line that tells when, and where they stood.
fn add<P: Clock + Files<File = File>>(
    torn: &TornFile<'_, P>,
    number: usize,
    bytes: &[u8],
) -> Result<(), FileFault> {
    let seconds = seconds_of(torn.rt);
    let len = bytes.len();
    let line = format!(in torn.heap; "{seconds} record {number}, {len} bytes\n")?;
    let mut file = open(torn)?;
    write(&mut file, line.as_bytes(), bytes)
}

/// The file, which is made where it isn't there.
fn open<P: Files<File = File>>(torn: &TornFile<'_, P>) -> Result<File, FileFault> {
    let mut name = String::from_str(torn.heap, torn.name)?;
    name.push_str(TORN)?;
    let file = OpenOptions::new()
        .append(true)
        .create(true)
        .mode(OWNER_ALONE)
        .open(torn.rt, name.as_str())?;
    Ok(file)
}

/// Writes a line, and the bytes behind it, onto the disk.
fn write(file: &mut File, line: &[u8], bytes: &[u8]) -> Result<(), FileFault> {
    file.write_all(line)?;
    file.write_all(bytes)?;
    file.write_all(b"\n")?;
    file.sync_all()?;
    Ok(())
}
