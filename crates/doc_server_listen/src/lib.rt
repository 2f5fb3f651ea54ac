//! What a turn of a server is made of beside its network: what a step costs, what is left of a turn to take, whether a step only reads,
//! and the edits of a turn as lines of a script. `doc_server_network` keeps the lines, and `doc_server_serving` shares its turns by the
//! costs. Of the system it calls nothing.
#![tactic(auto)]

pub mod cost;
pub mod edit_lines;
pub mod laws;
pub mod only_reads;
pub mod share;
