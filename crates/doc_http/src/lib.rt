//! Requests of HTTP/1.1 as bytes (RFC 9112): what the unread bytes of a connection begin with, and the token
//! that a request carries. Under this one name also replies and their bytes, from `doc_http_replies`.
#![tactic(auto)]

mod accept;
pub mod bearer;
mod building;
mod conditions;
mod content_type;
mod fields;
mod head;
pub mod laws;
pub mod password;
mod progress;
pub mod request;
pub mod unread;

pub use doc_http_replies::{manner, people_reply, reply, reply_form, status, style_sheet};
