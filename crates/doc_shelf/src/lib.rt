//! The pages of a site ready to be served: a store, what is kept of its pages for every list, and a cache of documents.
//!
//! Contracts see the renderer and the store alone: what a call answers is said of a reader's view of the store, and what is kept beside
//! it is in no contract. It is the invariant of the shelf: what is kept is what the renderer makes of each page under its present
//! stamp, of a shelf for people each page stands in the rows of its groups and of what its links write, and each text of the cache is a
//! document. `doc_shelf_pages` edits what is kept and makes the lists, `doc_shelf_documents` makes the documents, and `doc_shelf_views`,
//! `doc_shelf_hits` and `doc_rows_folders` answer what the pages for people ask.
#![tactic(auto)]

mod in_step;
mod moving;
mod page_change;
mod people_rows;
mod reader_view;
mod shelf;

pub use reader_view::ReaderView;
pub use shelf::{Saying, Shelf};
