//! What a server is given while it serves.

use doc_media::media::Media;
use doc_page_parts::bytes::Bytes;
use doc_page_parts::list::List;
use doc_store::readers::Readers;
use doc_store::store::Store;

/// What a server is given while it serves.
#[derive(Drop)]
pub enum Given {
    /// A configuration, by which it serves from here on.
    Configuration(Configuration),
    /// The texts of records that another server has written, which it follows.
    Records(List<Bytes>),
}

/// Readers, pages and media of a configuration. On the pages stand the edits of the journal besides.
#[derive(Drop)]
pub struct Configuration {
    pub readers: Readers,
    pub pages: Store,
    /// None where it asks for no media.
    pub media: Option<Media>,
}
