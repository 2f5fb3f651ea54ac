//! The pages for people that show a page of the site.
//!
//! `page_body` is such a page as a whole, `push_article` its part between the tags. Each writer adds to the end of a buffer, where after a
//! refusal part of it may stand.
#![tactic(auto)]

mod article;
mod headings;
mod inert;
mod linked_from;
mod page;

pub use article::push_article;
pub use page::page_body;
