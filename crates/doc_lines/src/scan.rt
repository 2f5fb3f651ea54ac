//! Scanners: each answers the text behind what stands at the front of a text, or `None` where that does not stand there.
//!
//! A scanner's contract names the parser of `doc_rules` that it is, over the characters of the text. What it answers is the
//! end of the text, so that [`front::front`] cuts what was taken without going over it again. No scanner goes back further
//! than a fixed number of times: each takes time in proportion to what it looks at.

pub mod autolink;
pub mod character;
pub mod front;
pub mod run;
pub mod tag;
pub mod until;
pub mod white_space;
pub mod word;
