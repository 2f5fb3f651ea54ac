//! What happens to a hub, as values: its events, what comes of each, and why one is refused. `doc_hub` passes them on under its own name;
//! they are a crate of their own, so that what reads and writes them (`doc_server_script`) needs no hub.
#![tactic(auto)]

pub mod event;
pub mod outcome;
pub mod refusal;
