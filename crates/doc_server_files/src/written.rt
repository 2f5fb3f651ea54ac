//! What the document of a configuration says of a server that runs.

ghost use Rattle.std.specs.Prelude.{IfOk};
ghost use Rattle.toml.specs.View.{table_view};
ghost use Rattle.doc_server_log_names.specs.Names.{AreNamesOf};
ghost use Rattle.doc_server_files.specs.Rows.{IsOwn};

use crate::files::config_of;
use crate::site_fault::SiteFault;
use doc_page_parts::heap::Heap;
use doc_page_parts::list::List;
use doc_people::settings::Browse;
use doc_server_config::bounds::Bounds;
use doc_server_config::browsing::BrowseError;
use doc_server_config::config::SiteConfig;
use doc_server_config::document::Document;
use doc_server_config::folder::Folder;
use doc_server_config::listening::{Listening, ListeningError};
use doc_server_log_names::names::Names;
use doc_server_streams::fault::Fault;

/// What a document says of a server that runs.
#[derive(Drop)]
pub struct Written {
    pub config: SiteConfig,
    pub bounds: Bounds,
    pub folders: List<Folder>,
    /// Its readers, as the log names them.
    pub names: Names,
}

/// What a document says beside the configuration that each command goes by.
#[derive(Drop)]
struct Running {
    listening: Listening,
    browse: Option<Browse>,
    names: Names,
}

/// What a document says of a server that runs, with its pages for people.
pub fn written_in(heap: Heap, document: &Document) -> Result<Written, SiteFault>
    ensures own { IfOk result (λ written. IsOwn written.config) }
    ensures names { IfOk result
        (λ written. AreNamesOf (table_view document.now.table) written.names) }
{
    let config = config_of(heap, document)?;
    let Running {
        listening,
        browse,
        names,
    } = running_of(heap, document)?;
    let Listening { bounds, folders } = listening;
    Ok(Written {
        config: SiteConfig { browse, ..config },
        bounds,
        folders,
        names,
    })
}

/// What a document says beside the configuration that each command goes by.
fn running_of(heap: Heap, document: &Document) -> Result<Running, SiteFault>
    ensures names { IfOk result
        (λ running. AreNamesOf (table_view document.now.table) running.names) }
{
    let listening = listening_of(heap, document)?;
    let browse = browse_of(heap, document)?;
    let names = Names::of_document(heap, &document.table)?;
    Ok(Running {
        listening,
        browse,
        names,
    })
}

/// What a server that runs goes by, of a configuration's document.
fn listening_of(heap: Heap, document: &Document) -> Result<Listening, SiteFault> {
    match document.listening(heap) {
        Ok(listening) => Ok(listening),
        Err(ListeningError::Memory) => Err(SiteFault::Command(Fault::Memory)),
        Err(e) => Err(SiteFault::Listening(e)),
    }
}

/// The pages for people, of a configuration's document.
fn browse_of(heap: Heap, document: &Document) -> Result<Option<Browse>, SiteFault> {
    match document.browse(heap) {
        Ok(browse) => Ok(browse),
        Err(BrowseError::Memory) => Err(SiteFault::Command(Fault::Memory)),
        Err(e) => Err(SiteFault::Browsing(e)),
    }
}
