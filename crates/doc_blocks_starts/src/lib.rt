//! What one line begins and ends (CommonMark 0.31.2, sections 4 and 5): leaf blocks, block quotes and list items, which takes no memory;
//! and the blocks of a document as a flat list of tags, in the order of the text: leaf blocks, and where container blocks start and end.
#![tactic(auto)]

mod end;
pub mod fence;
pub mod heading;
pub mod html;
pub mod indentation;
pub mod item;
pub mod quote;
mod run;
pub mod strip;
pub mod table_lines;
pub mod tag;
pub mod texts;
pub mod thematic_break;
