//! The call of `compact`: the journal of a name is opened, its edits are made on a site, and a journal of the edits that lead to that site
//! takes the name. It is generic over where names are, so that it is known what becomes of the file of the name.
#![tactic(auto)]

pub mod compacting;
pub mod fault;
pub mod memory_place;
pub mod old_journal;
pub mod place;
pub mod reserve;
mod writing;
