//! What a configuration gives that is read anew, until it is served.

ghost use Rattle.doc_server_files.specs.Configured.{IsConfigured};

use crate::made_pages::MadePages;
use doc_media::media::Media;
use doc_page_parts::heap::Heap;
use doc_page_parts::list::List;
use doc_server_config::document::Document;
use doc_server_config::readme::Move;
use doc_server_files::files::Pages;
use doc_server_log_names::names::Names;
use doc_server_serving::given::Configuration;
use doc_server_streams::fault::Fault;

/// A configuration that isn't served yet.
#[derive(Drop)]
pub struct Pending {
    pub document: Document,
    pub names: Names,
    /// How many media it has, and whether they are others than those that are served.
    pub media_count: usize,
    pub has_other_media: bool,
}

/// What a configuration gives, whose files are read.
pub struct Gathered {
    pub pending: Pending,
    pub pages: Pages,
    pub moves: List<Move>,
    pub media: Option<Media>,
}

/// Written out, so that it is proved here once: what a derived drop does is proved wherever a value is let go.
impl Drop for Gathered {
    fn drop(self) {
        let Gathered {
            pending: _,
            pages: _,
            moves: _,
            media: _,
        } = self;
    }
}

/// The same, once its pages are in a store.
pub struct Made {
    pub pending: Pending,
    pub pages: MadePages,
    pub media: Option<Media>,
}

/// Written out, so that it is proved here once: what a derived drop does is proved wherever a value is let go.
impl Drop for Made {
    fn drop(self) {
        let Made {
            pending: _,
            pages: _,
            media: _,
        } = self;
    }
}

impl Gathered {
    /// Puts its pages into a store.
    pub fn make(self, heap: Heap) -> Result<Made, Fault> {
        let Gathered {
            pending,
            pages,
            moves,
            media,
        } = self;
        let pages = MadePages::make(heap, pages, moves)?;
        Ok(Made {
            pending,
            pages,
            media,
        })
    }
}

impl Made {
    /// What waits until it is served, and what is served then.
    pub fn end(self) -> (Pending, Configuration)
        ensures given { IsConfigured result.1.pages }
    {
        let Made {
            pending,
            pages,
            media,
        } = self;
        let (readers, pages) = pages.end();
        let configuration = Configuration {
            readers,
            pages,
            media,
        };
        (pending, configuration)
    }
}
