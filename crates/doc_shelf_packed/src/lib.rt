//! Renderings whose pieces stand in one text.
//!
//! A rendering is a list of pieces, HTML or a link's place, each with a text of its own. Kept so it takes a block of memory for each text.
//! `PackedPage` keeps the texts one after another in one, `packing` makes that of pieces, `unpacking` makes pieces of it again, and
//! `filling` writes the page without making them. `copying` copies what stands beside the pieces.
#![tactic(auto)]

mod copying;
mod filling;
mod packing;
mod page;
mod unpacking;

pub use page::PackedPage;
