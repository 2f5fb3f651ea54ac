//! The marks of a text as they are made, with the delimiter runs among them, and emphasis in place (CommonMark 0.31.2, section 6.2, and
//! the procedure "process emphasis" of its appendix).
//!
//! [`Marks`] are two lists side by side: marks, and runs, each of which knows where the mark of its leftmost delimiter stands that is left.
//! Each delimiter has a mark of its own, a text of one character. So a start or an end of emphasis takes the place of a delimiter, and
//! nothing is inserted or moved: places stay good while a text is read. [`Marks::wrap`] makes the emphasis of all behind a place, by one
//! pass over the runs there (`pass`), which then leave; what is left of them stays the text that its marks are.
#![tactic(auto)]

mod delimiter;
pub mod laws;
mod marks;
mod openers;
mod pair;
mod pass;
mod run;

pub use delimiter::Delimiter;
pub use marks::{Marks, Place};
