//! Serving peers over a network: peers are accepted, turns of theirs are made one behind the other (`doc_server_turns`), and between two of
//! them a hub goes by what its configuration, or a server that it follows, gives.
#![tactic(auto)]

pub mod door;
pub mod fault;
pub mod given;
pub mod hosting;
pub mod named_file;
pub mod net;
pub mod next_turn;
pub mod room;
pub mod server;
pub mod source;

pub use doc_server_turns::{limits, peers, scope};
