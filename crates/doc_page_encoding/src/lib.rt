//! Percent-encoding (RFC 3986, section 2.1): paths, anchors and destinations as URIs and HTML write them.
#![tactic(auto)]

pub mod encoding;
pub mod laws;
