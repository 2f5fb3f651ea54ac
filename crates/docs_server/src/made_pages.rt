//! The pages of a configuration in a store, kept beside what they are made of.

ghost use Rattle.std.specs.Prelude.{◌≡◌, Some, IfOk};
ghost use Rattle.std.specs.Coded.{Coded-set, coded_option};
ghost use Rattle.doc_server_restore.specs.Restores.{unstamped};
ghost use Rattle.doc_server_files.specs.Configured.{IsConfigured, configured_pages};

use doc_page_parts::heap::Heap;
use doc_page_parts::list::List;
use doc_server_config::readme::Move;
use doc_server_files::files::Pages;
use doc_server_files::site_store::configured_store;
use doc_server_streams::fault::Fault;
use doc_store::readers::Readers;
use doc_store::store::Store;

/// The pages of a configuration in a store, behind the moves that are made on them.
pub struct MadePages {
    pages: Pages,
    moves: List<Move>,
    store: Store,
    ghost made: { configured_pages pages.config pages.texts moves ≡ Some (unstamped store) } by { Coded-set (coded_option store-code)
        (configured_pages pages.config pages.texts moves) (Some (unstamped store)) },
}

/// Written out, so that it is proved here once: what a derived drop does is proved wherever a value is let go.
impl Drop for MadePages {
    fn drop(self) {
        let MadePages {
            pages: _,
            moves: _,
            store: _,
        } = self;
    }
}

impl MadePages {
    /// Puts the pages into a store of their own, and makes the moves. `Config` says that the cache can't have so many pages, `Refused` that
    /// a page or a move isn't taken.
    pub fn make(heap: Heap, pages: Pages, moves: List<Move>) -> Result<MadePages, Fault>
        ensures pages { IfOk result (λ made. made.pages ≡ pages) }
        ensures moves { IfOk result (λ made. made.moves ≡ moves) }
    {
        let store = configured_store(heap, &pages, moves.get())?;
        Ok(MadePages {
            pages,
            moves,
            store,
        })
    }

    /// The readers of the configuration, and its pages.
    pub fn end(self) -> (Readers, Store)
        ensures readers { result.0 ≡ self.pages.config.readers }
        ensures store { result.1 ≡ self.store }
        ensures configured { IsConfigured result.1 }
    {
        let MadePages {
            pages,
            moves: _,
            store,
        } = self;
        let Pages { config, texts: _ } = pages;
        (config.readers, store)
    }
}
