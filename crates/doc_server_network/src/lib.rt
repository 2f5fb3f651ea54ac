//! Networks: connections by their numbers, and calls that never wait but one. Contracts say what came and what was handed over on each
//! connection, where that is known. Bytes are handed over by leave of a hub whose edits are saved: it is one value with its journal and
//! the edits that aren't in that yet, so that no step is made past them, and no byte is handed over before they are on the device. A
//! network may be watched by somebody who has no say in it.
#![tactic(auto)]

pub mod accepted;
pub mod came;
pub mod follow_fault;
pub mod guest;
pub mod handed;
pub mod laws;
pub mod lead;
mod line;
pub mod memory_network;
pub mod mio_network;
pub mod net_fault;
pub mod network;
pub mod permit;
pub mod reload_fault;
pub mod reloaded;
mod reloading;
pub mod retrying;
pub mod saved_hub;
pub mod script;
pub mod told;
pub mod watch;
pub mod watched;

pub use doc_server_reload::beside;
