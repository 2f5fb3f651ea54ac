//! A server that follows another server's journal, which grows.
//!
//! The other server writes a record behind the closed gate, and then opens the gate. So what stands in front of that gate stays: the
//! follower looks there for what it took last, the *mark*, and takes the whole records behind it. Where the mark stands no more, or no
//! gate behind it, the file is not the journal that was followed, or no longer: it is to be read anew.
//!
//! Nothing here reads a file but by the trait `Growing`.
#![tactic(auto)]

pub mod followed;
pub mod growing;
pub mod growing_fault;
pub mod laws;
pub mod looked;
pub mod memory_file;
mod sight;
mod taken;
