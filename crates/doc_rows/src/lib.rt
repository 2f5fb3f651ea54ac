//! Rows: for each of some texts an ordered set of paths. The pages of a site stand in a row of all pages and in one for each of their
//! groups; so what a reader sees is found without a walk over what is hidden from them.
#![tactic(auto)]

pub mod placing;
pub mod row;
pub mod rows;
pub mod seen;
