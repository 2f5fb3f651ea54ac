//! The pages of a store with what is kept of them for answers, the edits that keep both in step, and the lists made of that.
//!
//! A page is kept under its path and a stamp in three maps, for its links, its words and its rendering, which change together: a call
//! changes all of them, or, where memory is refused, none. To let a page go takes no memory. The texts of renderings are kept where what is
//! kept was made so, and no edit changes that. Beside each rendering stand the lines that contents have of its page.
//!
//! `specs/Views` says what each list is of a reader's view, and `specs/Held` what indexes hold of the pages of a store; `view_laws` carry
//! one to the other: what is held, asked by what a reader sees, answers what the definitions say of the reader's view. `specs/Shelves`
//! says what is kept of the pages of a store, and which documents may stand in a cache; `edit_laws` say that edits of the store, with
//! what goes with them, keep both so. `edits` makes these edits, `lists` the lists, of which `flags` tells the pages that are seen and
//! `hits` what a search finds, and `images` what is told of the images of pages; `named` finds paths that texts are, and `visible` the page that a reader may see.
#![tactic(auto)]

pub mod edit_laws;
pub mod edits;
mod flags;
mod hits;
pub mod images;
mod keeping;
mod kept_pages;
mod lined;
pub mod lists;
pub mod named;
mod renderings;
pub mod view_laws;
pub mod visible;

pub use kept_pages::KeptPages;
