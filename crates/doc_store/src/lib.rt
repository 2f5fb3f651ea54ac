//! The pages of a site with their aliases: what stands under a path, where it leads, and what a reader
//! sees of it. Groups, pages and readers are those of `doc_store_readers`, and stand under this crate's
//! name too.
#![tactic(auto)]

mod aliases;
mod by_goal;
mod counted_pages;
mod goals;
mod group_sets;
pub mod laws;
pub mod moving;
mod numbers;
mod path_set;
pub mod site_edit;
pub mod site_sight;
pub mod store;

pub use doc_store_readers::{groups, page, reader, readers};
