//! HTML and pages of documents (the HTML is that of the examples of CommonMark 0.31.2; pages are this project's choice).
#![tactic(auto)]

mod blocks;
mod code;
mod common_mark;
mod containers;
mod destinations;
mod document;
mod escaping;
mod flattening;
mod fresh;
mod html_writer;
mod inlines;
pub mod laws;
mod leaves;
mod links;
mod nesting;
mod page_writer;
mod pages;
mod plain_linker;
mod plain_text;
mod reading;
mod rendering;
mod tables;
mod writer;

pub use common_mark::CommonMark;
pub use document::to_html;
pub use plain_linker::PlainLinker;
pub use rendering::render_plain;
