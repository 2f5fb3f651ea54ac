//! A configuration's document, which is read once for all that is asked of it.

ghost use Rattle.std.specs.Prelude.{◌≡◌, ◌≢◌, Ok, Err, Some, None, IfOk, IfErr};
ghost use Rattle.toml.specs.Parse.{parse_document};
ghost use Rattle.toml.specs.View.{table_view};
ghost use Rattle.doc_server_config.specs.Browsing.{browse_of_document};
ghost use Rattle.doc_server_config.specs.Configurations.{config_of_document};
ghost use Rattle.doc_server_config.specs.Listenings.{listening_of_document};

use crate::browsing::{BrowseError, browse_in};
use crate::config::{ConfigError, SiteConfig};
use crate::listening::{Listening, ListeningError};
use doc_page_parts::heap::Heap;
use doc_people::settings::Browse;
use doc_store::readers::ReadersError;
use doc_store_readers::tables::document_of;
use toml::Table;

/// A TOML 1.1 document.
pub struct Document {
    pub table: Table,
}

/// Written out, so that it is proved here once: what a derived drop does is proved wherever a value is let go.
impl Drop for Document {
    fn drop(self) {
        let Document { table: _ } = self;
    }
}

impl Document {
    /// The document that a text is; `BadToml` says that it is none.
    pub fn of(heap: Heap, text: &str) -> Result<Document, ConfigError>
        ensures read { IfOk result (λ document.
            parse_document text.now ≡ Some (table_view document.table)) }
        ensures refused { IfErr result (λ e. e ≢ ConfigError.Memory
            → (e ≡ ConfigError.BadToml) × (parse_document text.now ≡ None)) }
    {
        match document_of(heap, text) {
            Ok(table) => Ok(Document { table }),
            Err(ReadersError::Memory) => Err(ConfigError::Memory),
            Err(_) => Err(ConfigError::BadToml),
        }
    }

    /// The configuration of a site that it is, as [`SiteConfig::from_toml`].
    pub fn config(&self, heap: Heap) -> Result<SiteConfig, ConfigError>
        ensures read { IfOk result (λ config.
            config_of_document (table_view self.now.table) ≡ Ok config) }
        ensures refused { IfErr result
            (λ e. e ≢ ConfigError.Memory → config_of_document (table_view self.now.table) ≡ Err e) }
    {
        SiteConfig::from_document(heap, &self.table)
    }

    /// What `listen` goes by, as [`Listening::from_toml`].
    pub fn listening(&self, heap: Heap) -> Result<Listening, ListeningError>
        ensures read { IfOk result (λ listening.
            listening_of_document (table_view self.now.table) ≡ Ok listening) }
        ensures refused { IfErr result
            (λ e. e ≢ ListeningError.Memory
            → listening_of_document (table_view self.now.table) ≡ Err e) }
    {
        Listening::from_document(heap, &self.table)
    }

    /// What it says of the pages for people, as [`crate::browsing::browse_of`].
    pub fn browse(&self, heap: Heap) -> Result<Option<Browse>, BrowseError>
        ensures read { IfOk result (λ browse.
            browse_of_document (table_view self.now.table) ≡ Ok browse) }
        ensures refused { IfErr result
            (λ e. e ≢ BrowseError.Memory
            → browse_of_document (table_view self.now.table) ≡ Err e) }
    {
        browse_in(heap, &self.table)
    }
}
