//! Encoded paths, as `doc_page_encoding` writes them.

pub use doc_page_encoding::encoding::push_encoded_path;
