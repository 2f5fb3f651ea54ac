//! A turn of peers over a network, whose connections are known by their numbers: what came is taken in, a hub answers it, and the replies
//! are handed over once all edits are on the device. The loop of turns is of `doc_server_serving`; this is a crate of its own, since the
//! gate's edits prove it once more, and as a part of that one they would prove both.
#![tactic(auto)]

pub mod client;
pub mod letting_go;
pub mod limits;
pub mod peers;
pub mod scope;
mod sending;
pub mod setting;
mod silence;
mod stage;
mod stranger;
pub mod taking;
pub mod telling;
pub mod turn;
mod unfinished;
