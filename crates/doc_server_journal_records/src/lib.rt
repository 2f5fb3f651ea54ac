//! The records of a journal as bytes: how one is written, and what the bytes of a file say. `doc_server_journal` keeps them in a file.
//!
//! A journal is a header with its identity, records, each behind an open gate, and a closed gate. A gate is a byte that stands nowhere
//! else: 0xFF open, 0xF0 closed. A record is text: the length of its lines, its time, the lines, and a SHA-256 over the digest of the
//! record before, that length, the time and the lines. Behind the closed gate stands what a crash may leave of a record that was
//! never opened.
//!
//! It is a crate of its own, since the gate's edit of closed gates proves it once more, and not what writes files.
#![tactic(auto)]

pub mod first;
pub mod found;
pub mod header;
mod hexadecimal;
pub mod laws;
pub mod next;
pub mod read_error;
pub mod reading;
pub mod record;
