//! Replies of HTTP/1.1 as bytes (RFC 9112): a reply by its fields, a content, or one of the three forms without one, each of which can be
//! written. The bytes are made of borrowed parts, so that a content is copied once.
//!
//! How a reply is written is its manner, by which the settings of a site ask for further lines in the head. Replies to people, with a page
//! each, those to owners who edit pages, and that of the style sheet have heads of their own.
#![tactic(auto)]

mod challenges;
pub mod edit_reply;
mod ending;
pub mod laws;
mod lines;
pub mod manner;
pub mod people_reply;
pub mod pieces;
pub mod policies;
pub mod reply;
pub mod reply_form;
mod reply_parts;
pub mod status;
pub mod style_sheet;
