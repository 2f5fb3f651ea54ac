//! The hub of a configured site.

ghost use Rattle.std.specs.Prelude.{◌≡◌, ◌≢◌, true, false, None, Some, Ok, Err, IfOk, IfErr, OnOk};
ghost use Rattle.doc_hub.specs.Worlds.{is_capacity, new_world};
ghost use Rattle.doc_server.specs.Sites.{site_world, site_world_beside, site_world_taking, text_of, texts_behind, with_page, with_pages};

use doc_hub::hub::Hub;
use doc_hub::refusal::HubError;
use doc_media::media::Media;
use doc_page::renderer::Renderer;
use doc_page_parts::heap::Heap;
use doc_page_parts::text::Text;
use doc_people::settings::Settings;
use doc_server_config::config::SiteConfig;
use doc_server_config::page_row::{PageRow, Source};
use doc_server_streams::fault::Fault;
use doc_store::readers::Readers;
use doc_store::store::EditError;

/// A hub with the readers and pages of a configuration. `texts` are those of the files that its pages name, in the order of these
/// pages; further ones don't count. A path that comes again has the later page. `Config` says that the cache may not have this
/// capacity, `Refused` that the hub refuses a page, or that the text of its file isn't among `texts`.
pub fn site_hub<R: Renderer + Drop>(
    heap: Heap,
    renderer: R,
    config: SiteConfig,
    texts: &[Text],
) -> Result<Hub<R>, Fault>
    ensures world { IfOk result (λ hub. site_world config texts.now ≡ Ok hub.1) }
    ensures same { IfOk result (λ hub. R.page hub.0 ≡ R.page renderer) }
    ensures fault { IfErr result (λ fault. fault ≢ Fault.Memory
        → site_world config texts.now ≡ Err fault) }
{
    site_hub_beside(heap, renderer, config, texts, None)
}

/// The same with these media beside the pages. `Refused` says also that a medium stands under the path of a page.
pub fn site_hub_beside<R: Renderer + Drop>(
    heap: Heap,
    renderer: R,
    config: SiteConfig,
    texts: &[Text],
    media: Option<Media>,
) -> Result<Hub<R>, Fault>
    ensures world { IfOk result
        (λ hub. site_world_beside config texts.now media ≡ Ok hub.1) }
    ensures same { IfOk result (λ hub. R.page hub.0 ≡ R.page renderer) }
    ensures fault { IfErr result (λ fault. fault ≢ Fault.Memory
        → site_world_beside config texts.now media ≡ Err fault) }
{
    site_hub_taking(heap, renderer, config, texts, media, true)
}

/// The same, which takes edits or takes none: then each request for one is answered that its method isn't allowed.
pub fn site_hub_taking<R: Renderer + Drop>(
    heap: Heap,
    renderer: R,
    config: SiteConfig,
    texts: &[Text],
    media: Option<Media>,
    takes_edits: bool,
) -> Result<Hub<R>, Fault>
    ensures world { IfOk result
        (λ hub. site_world_taking takes_edits config texts.now media ≡ Ok hub.1) }
    ensures same { IfOk result (λ hub. R.page hub.0 ≡ R.page renderer) }
    ensures fault { IfErr result (λ fault. fault ≢ Fault.Memory
        → site_world_taking takes_edits config texts.now media ≡ Err fault) }
{
    let SiteConfig {
        keep_alive,
        cache,
        entities: _,
        markdown: _,
        readers,
        pages,
        browse,
    } = config;
    let settings = Settings {
        keep_alive,
        takes_edits,
        browse,
    };
    let mut hub = new_hub(heap, renderer, readers, settings, cache, media)?;
    put_pages(&mut hub, pages.get(), texts)?;
    Ok(hub)
}

fn new_hub<R: Renderer + Drop>(
    heap: Heap,
    renderer: R,
    readers: Readers,
    settings: Settings,
    cache: usize,
    media: Option<Media>,
) -> Result<Hub<R>, Fault>
    ensures made { IfOk result (λ hub. hub ≡ (renderer, new_world readers settings media)) }
    ensures capacity { IfOk result (λ hub. is_capacity cache ≡ true) }
    ensures fault { IfErr result (λ fault. fault ≢ Fault.Memory
        → (fault ≡ Fault.Config) × (is_capacity cache ≡ false)) }
{
    match Hub::with_media(heap, renderer, readers, settings, cache, media) {
        Ok(hub) => Ok(hub),
        Err(HubError::Memory) => Err(Fault::Memory),
        Err(HubError::BadCapacity) => Err(Fault::Config),
    }
}

/// Puts each page.
fn put_pages<R: Renderer + Drop>(
    hub: &mut Hub<R>,
    pages: &[PageRow],
    texts: &[Text],
) -> Result<(), Fault>
    ensures world { OnOk result (with_pages hub.old.1 pages.now texts.now ≡ Some hub.new.1) }
    ensures same { R.page hub.new.0 ≡ R.page hub.old.0 }
    ensures fault { IfErr result (λ fault. fault ≢ Fault.Memory
        → (fault ≡ Fault.Refused) × (with_pages hub.old.1 pages.now texts.now ≡ None)) }
{
    let mut left = texts;
    for page in pages {
        left = put_page(hub, page, left)?;
    }
    Ok(())
}

/// Puts a page, and answers which texts of files are left for those behind it.
fn put_page<'a, R: Renderer + Drop>(
    hub: &mut Hub<R>,
    page: &PageRow,
    texts: &'a [Text],
) -> Result<&'a [Text], Fault>
    ensures world { OnOk result
        (with_page hub.old.1 page.now (text_of page.now.source texts.now) ≡ Some hub.new.1) }
    ensures left { IfOk result (λ left. left.now ≡ texts_behind page.now.source texts.now) }
    ensures same { R.page hub.new.0 ≡ R.page hub.old.0 }
    ensures fault { IfErr result (λ fault. fault ≢ Fault.Memory → (fault ≡ Fault.Refused)
        × (with_page hub.old.1 page.now (text_of page.now.source texts.now) ≡ None)) }
{
    match &page.source {
        Source::Text(text) => {
            put_text(hub, page, text.get())?;
            Ok(texts)
        }
        Source::File(_) => {
            let Some((text, left)) = texts.split_first() else {
                return Err(Fault::Refused);
            };
            put_text(hub, page, text.get())?;
            Ok(left)
        }
    }
}

/// Puts a page with this text.
fn put_text<R: Renderer + Drop>(hub: &mut Hub<R>, page: &PageRow, text: &str) -> Result<(), Fault>
    ensures world { OnOk result
        (with_page hub.old.1 page.now (Some text.now) ≡ Some hub.new.1) }
    ensures same { R.page hub.new.0 ≡ R.page hub.old.0 }
    ensures fault { IfErr result (λ fault. fault ≢ Fault.Memory → (fault ≡ Fault.Refused)
        × (with_page hub.old.1 page.now (Some text.now) ≡ None)) }
{
    match hub.put_page(&page.path, &page.groups, text) {
        Ok(_) => Ok(()),
        Err(EditError::Memory) => Err(Fault::Memory),
        Err(_) => Err(Fault::Refused),
    }
}
