//! The inlines of a text as a flat list of marks (CommonMark 0.31.2, section 6): what they are, what they show, where their texts stand,
//! and what reads single ones.
//!
//! Marks are `Copy` and small: they own nothing. What a link names stands in an arena, as it was written, and is read where it is
//! asked for.
//!
//! `tails` reads what follows the `]` of a link or an image. What is enclosed is read by [`Enclosed`]: code spans between backticks, and
//! behind a `<` autolinks and raw HTML (sections 6.1, 6.5 and 6.6). A text with many openings and no end for them would be searched to its
//! end again and again. So each kind of search keeps what it learned when it failed: [`Backticks`] the last run of each length,
//! [`MissingEnds`] the ends of raw HTML that are sought no more. Both are told of one text; the next text begins with a new one, or behind
//! [`Backticks::forget`].
#![tactic(auto)]

mod address;
pub mod arena;
mod backticks;
mod code;
mod enclosed;
mod ends;
mod inline_tail;
mod label;
pub mod mark_ref;
mod reference_tail;
mod runs;
mod seek;
pub mod tails;
pub mod target_ref;
pub mod unescaped;

pub use backticks::Backticks;
pub use enclosed::Enclosed;
pub use ends::MissingEnds;
