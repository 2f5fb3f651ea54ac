//! Numbers of texts, so that what compares many of them compares numbers.
//!
//! A text that something uses has a number, and no two texts have the same. What uses a text is told by a slot, as the place where a
//! page is held: a text keeps its number as long as a slot uses it, and the number is given anew once none does. So the table takes
//! room for what is used, and not for all that ever was. To enter a text and to let it go cost a logarithm of the number of texts.
#![tactic(auto)]

pub(crate) mod link_numbers;
pub mod name;
pub(crate) mod name_map;
pub mod names;
pub mod page_numbers;
