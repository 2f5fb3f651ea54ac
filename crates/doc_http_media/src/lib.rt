//! Replies of HTTP/1.1 as bytes (RFC 9112) that are media: pictures, and other files that stand beside the pages of a site. The head says
//! how a browser is to take what follows; the medium is copied once.
//!
//! It is a crate of its own, so that all that stands on other replies needn't be proved with it.
#![tactic(auto)]

mod lines;
pub mod medium_reply;
