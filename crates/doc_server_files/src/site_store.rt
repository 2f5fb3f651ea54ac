//! The store of a configured site, without a hub: what edits are made on where nothing is served.

ghost use Rattle.std.specs.Prelude.{◌≡◌, ◌≢◌, Some, None, Ok, Err, IfOk, IfErr, OnOk};
ghost use Rattle.doc_hub.specs.Worlds.{is_capacity};
ghost use Rattle.doc_server_restore.specs.Restores.{unstamped};
ghost use Rattle.doc_server.specs.Sites.{site_world, text_of, texts_behind};
ghost use Rattle.doc_server_files.specs.Configured.{IsConfigured, configured_pages};
ghost use Rattle.doc_server_files.specs.Compacting.{store_in, stored_page, stored_pages};

use crate::files::Pages;
use crate::moving::make_moves;
use doc_page_parts::failure::Memory;
use doc_page_parts::heap::Heap;
use doc_page_parts::text::Text;
use doc_server_config::config::SiteConfig;
use doc_server_config::page_row::{PageRow, Source};
use doc_server_config::readme::Move;
use doc_server_restore::edits::Edits;
use doc_server_streams::fault::Fault;
use doc_store::store::Store;

/// The pages of a configured site, behind the moves that are made on them, in a store of their own.
pub fn configured_store(heap: Heap, pages: &Pages, moves: &[Move]) -> Result<Store, Fault>
    ensures pages { IfOk result (λ store.
        configured_pages pages.now.config pages.now.texts moves.now ≡ Some (unstamped store)) }
    ensures configured { IfOk result (λ store. IsConfigured store) }
{
    let mut store = site_store(heap, &pages.config, pages.texts.get())?;
    make_moves(&mut store, moves)?;
    Ok(store)
}

/// The store of the hub that a configuration makes, or what stops the program in its place.
pub fn site_store(heap: Heap, config: &SiteConfig, texts: &[Text]) -> Result<Store, Fault>
    ensures store { IfOk result (λ store.
        store_in (site_world config.now texts.now) ≡ Ok (unstamped store)) }
    ensures fault { IfErr result (λ fault. fault ≢ Fault.Memory
        → site_world config.now texts.now ≡ Err fault) }
{
    if !is_capacity(config.cache) {
        return Err(Fault::Config);
    }
    let mut store = Store::new(heap);
    put_pages(&mut store, config.pages.get(), texts)?;
    Ok(store)
}

/// Whether a hub's cache may have this capacity.
fn is_capacity(cache: usize) -> bool
    ensures { result ≡ is_capacity cache }
{
    1 <= cache && cache <= 4096
}

/// Puts each page.
fn put_pages(store: &mut Store, pages: &[PageRow], texts: &[Text]) -> Result<(), Fault>
    ensures stored { OnOk result (stored_pages (unstamped store.old) pages.now texts.now
        ≡ Some (unstamped store.new)) }
    ensures fault { IfErr result (λ fault. fault ≢ Fault.Memory → (fault ≡ Fault.Refused)
        × (stored_pages (unstamped store.old) pages.now texts.now ≡ None)) }
{
    let mut left = texts;
    'pages: for page in pages {
        left = put_page(store, page, left)?;
    }
    Ok(())
}

/// Puts a page, and answers which texts of files are left for those behind it.
fn put_page<'a>(store: &mut Store, page: &PageRow, texts: &'a [Text]) -> Result<&'a [Text], Fault>
    ensures stored { OnOk result
        (stored_page (unstamped store.old) page.now (text_of page.now.source texts.now)
        ≡ Some (unstamped store.new)) }
    ensures left { IfOk result (λ left. left.now ≡ texts_behind page.now.source texts.now) }
    ensures fault { IfErr result (λ fault. fault ≢ Fault.Memory → (fault ≡ Fault.Refused)
        × (stored_page (unstamped store.old) page.now (text_of page.now.source texts.now)
        ≡ None)) }
{
    match &page.source {
        Source::Text(text) => {
            put_text(store, page, text.get())?;
            Ok(texts)
        }
        Source::File(_) => {
            let Some((text, left)) = texts.split_first() else {
                return Err(Fault::Refused);
            };
            put_text(store, page, text.get())?;
            Ok(left)
        }
    }
}

/// Puts a page with this text.
fn put_text(store: &mut Store, page: &PageRow, text: &str) -> Result<(), Fault>
    ensures stored { OnOk result (stored_page (unstamped store.old) page.now (Some text.now)
        ≡ Some (unstamped store.new)) }
    ensures fault { IfErr result (λ fault. fault ≢ Fault.Memory → (fault ≡ Fault.Refused)
        × (stored_page (unstamped store.old) page.now (Some text.now) ≡ None)) }
{
    match store.make_put(&page.path, &page.groups, text) {
        Ok(true) => Ok(()),
        Ok(false) => Err(Fault::Refused),
        Err(Memory) => Err(Fault::Memory),
    }
}
