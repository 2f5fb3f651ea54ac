//! The program as a library: its commands, each a function over an input and an output, and under this one name what serves a site:
//! streams and a configuration.
//!
//! A site's configuration names files, which the program reads: their texts are given beside it. A command makes the site first, and
//! writes nothing before it is sure of all that it was given.
#![tactic(auto)]

pub mod check;
pub mod count;
pub mod demo;
pub mod demo_site;
pub mod entity_table;
mod example_reader;
pub mod examples;
pub mod rendering;
pub mod replay;
pub mod site;

pub use doc_server_config::{config, page_row};
pub use doc_server_streams::{fault, memory_stream, stream, tcp_link, whole_input, whole_output};
