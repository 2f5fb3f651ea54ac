//! Tokens of readers: the row of a configuration by which a reader of a new token is known, and the digest that stands there in place of a
//! token.
//!
//! Tokens are made of random bytes, which nobody guesses, so an unsalted digest of one tells nothing of it. That is why a configuration
//! needn't hold them in clear text.
#![tactic(auto)]

pub mod digest;
pub mod fault;
mod line;
pub mod new_reader;
pub mod new_row;
pub mod row;
pub mod token;
