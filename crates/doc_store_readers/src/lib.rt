//! Groups, pages with their groups, and readers: who may see which page. The readers of a site stand by
//! their tokens or the digests of these, and come from the tables of a TOML configuration. What a reader sees of a whole site
//! is a definition here, with its laws; the store above keeps to it.
#![tactic(auto)]

mod copies;
mod digest_set;
pub mod documents;
mod entries;
pub mod groups;
mod keys;
pub mod laws;
mod listing;
mod names;
pub mod page;
pub mod reader;
pub mod readers;
pub mod tables;
