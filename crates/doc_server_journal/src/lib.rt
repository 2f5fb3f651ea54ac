//! A journal: texts kept in a file, each of them whole or not at all, whatever moment a crash comes at.
//!
//! What a record is in bytes, and what the bytes of a file say, stands in `doc_server_journal_records`. A new record is written
//! behind the closed gate and synced before the gate is opened. Devices are files of the system and, for trials, files in memory.
#![tactic(auto)]

pub mod clock;
pub mod device;
pub mod fault;
pub mod file_device;
pub mod file_fault;
pub mod journal;
pub mod making;
pub mod memory;
pub mod names;
pub mod opening;
pub mod random;
mod repair;
pub mod torn;
pub mod writing;
