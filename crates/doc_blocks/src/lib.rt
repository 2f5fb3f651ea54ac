//! The blocks of a document (CommonMark 0.31.2, sections 4 and 5, and the appendix): containers, leaves and definitions, in one pass
//! over the lines.
//!
//! What is kept from line to line is the *path of open blocks*: the open containers from the outermost in (`levels`), and at its end the
//! open leaf (`doc_blocks_leaves`). Each line (`Builder::add`)
//!
//! 1. goes down the path while the containers go on with it (`Levels::go_down`), so that what is left of it stands inside these;
//! 2. is taken by the open leaf, where it came to the end of the path and that is a fence, an HTML block or indented code;
//! 3. else begins what it begins (`Builder::begin`): quotes and items, and inside them a leaf. What is open inside the containers that it
//!    went down closes first;
//! 4. and where it begins nothing, is text (`Builder::put_text`): blank, a line of the open paragraph, indented code, or a new paragraph.
//!
//! What is finished stands as tags in a row, in the order of the text (`levels`): a leaf block is one, and a container has one where it
//! starts and one where it ends, so nothing is moved. `tags` answers that row, and `blocks` the tree that it makes (`tree`). That one pass
//! gives the document of the rules is the law of `doc_blocks_leaves::laws`; here each call is tied to its step there. Where a call answers
//! `Memory`, nothing is known of what is open: `tags` lets all of it go.
#![tactic(auto)]

mod block;
mod builder;
mod container;
mod content;
mod document;
mod levels;
mod plain_line;
mod tagged;
mod tasks;
#[cfg(test)]
mod tests;
mod tree;

pub use block::Block;
pub use document::{Document, blocks};
pub use tagged::{Tagged, tags};
