//! The templates that the pages for people stand in, written: the head, the bar at the top, the navigation, and the page as a whole.
#![tactic(auto)]

mod around;
mod bar;
mod crumbs;
mod foot;
pub mod frame;
mod head;
pub mod shell;
mod tools;
mod tree;
