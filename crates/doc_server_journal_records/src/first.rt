//! Journals of the first form, which are read once more, to be written in the form of now.
//!
//! A record is a gate (a byte: 1 open, 0 closed), the length of its text in four bytes, the lowest first, the text, and a SHA-256
//! over the digest of the record before, that length and the text. Behind the last record stands a closed gate.

mod front;
pub mod reading;
mod record;
