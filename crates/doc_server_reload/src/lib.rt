//! A reload: the edits that lead a site to another while it is served, from a configuration that was read anew.
//!
//! They give what a restart would give, and nothing is edited where nothing has changed. What the journal adds to the configuration is read
//! anew from its file while the server runs.
#![tactic(auto)]

mod alike;
pub mod anew;
pub mod beside;
pub mod laws;
pub mod lead;
pub mod leading;
pub mod making;
mod pushing;
