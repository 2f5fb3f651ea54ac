//! The identity of a new journal.

use crate::file_fault::FileFault;
use doc_server_journal_records::header::Identity;
use std::fs::File;
use std::io::Read;
use std::rt::Files;

/// The file of the system that gives random bytes.
const RANDOM: &str = "/dev/urandom";

/// An identity of the system's randomness.
pub fn new_identity<R: Files<File = File>>(rt: &R) -> Result<Identity, FileFault> {
    let mut bytes = [0u8; 16];
    File::open(rt, RANDOM)?.read_exact(&mut bytes)?;
    Ok(Identity::of(&bytes))
}
