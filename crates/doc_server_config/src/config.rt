//! A configuration.

ghost use Rattle.std.specs.Prelude.{◌≡◌, ◌≢◌, Ok, Err, IfOk, IfErr, Some, None};
ghost use Rattle.toml.specs.Parse.{parse_document};
ghost use Rattle.toml.specs.View.{table_view};
ghost use Rattle.doc_store_readers.specs.Readers.{ReaderTable};
ghost use Rattle.doc_server_config.specs.Configurations.{config_of, config_of_document, config_with};
ghost use Rattle.doc_server_config.specs.ConfigurationSteps.{config_beside};

use crate::markdown::Markdown;
use crate::page_row::{PageRow, pages_of};
use crate::settings::{Settings, settings_in};
use doc_page_parts::failure::Memory;
use doc_page_parts::heap::Heap;
use doc_page_parts::list::List;
use doc_page_parts::text::Text;
use doc_people::settings::Browse;
use doc_store::readers::{Readers, ReadersError};
use doc_store_readers::documents::readers_of_document;
use doc_store_readers::tables::{document_of, tables_at};
use std::error::Error;
use std::fmt;
use toml::Table;

/// Why a text is no configuration. Pages are counted from 1.
#[derive(Clone, Copy, Debug)]
pub enum ConfigError {
    /// The text is no TOML document.
    BadToml,
    /// The readers are refused, but never for want of memory.
    BadReaders(ReadersError),
    /// `keep_alive`, `cache`, `entities`, `markdown` or `page` holds what it may not.
    BadSetting,
    /// The first page without a path, without a source or with both, or with a key of a wrong value.
    BadPage(usize),
    Memory,
}

impl fmt::Display for ConfigError {
    fn fmt<W: fmt::Write>(&self, f: &mut fmt::Formatter<W>) -> fmt::Result {
        let text = match self {
            ConfigError::BadToml => "no TOML",
            ConfigError::BadReaders(e) => return fmt::Display::fmt(e, f),
            ConfigError::BadSetting => "a setting is bad",
            ConfigError::BadPage(page) => return write!(f, "page {page} is bad"),
            ConfigError::Memory => return fmt::Display::fmt(&Memory, f),
        };
        f.write_str(text)
    }
}

impl Error for ConfigError {}

impl From<Memory> for ConfigError {
    ghost use Rattle.std.specs.Prelude.{◌≡◌};
    ghost use Rattle.doc_server_config.specs.declared.config.ConfigError.TheVariants as refusals;

    ghost from_gives = { λ _ e. e ≡ refusals.Memory };

    fn from(_e: Memory) -> ConfigError {
        ConfigError::Memory
    }
}

/// The configuration of a site.
#[derive(Drop)]
pub struct SiteConfig {
    /// Whether connections are kept after a reply.
    pub keep_alive: bool,
    /// How many filled pages are kept, 1 to 4,096.
    pub cache: usize,
    /// The file of a table of entities, as it is to be opened.
    pub entities: Option<Text>,
    /// How texts are read.
    pub markdown: Markdown,
    pub readers: Readers,
    /// The pages in their order. A path may come again: its later page takes the place of the earlier.
    pub pages: List<PageRow>,
    /// The pages for people. A configuration that is read has none: `listen` adds them ([`browse_of`](crate::browsing::browse_of)).
    pub browse: Option<Browse>,
}

impl SiteConfig {
    /// The configuration that a TOML 1.1 document is: `keep_alive` (a boolean, else true), `cache` (1
    /// to 4,096, else 64), `entities` (the name of a file), the table `markdown` with none but `bare_links`,
    /// `check_images`, `skip_bom`, `strikethrough`, `tables` and `tasks` (booleans, else false) and
    /// `front_matter` (`skip` or `title`), the readers of its array `reader`, and its array `page`, each with a `path`, `groups`
    /// (an array of names, else none) and either `text` or `file`. Other keys are ignored. Refusals come in
    /// the order of [`ConfigError`], but that `Memory` may be answered before another one is found.
    pub fn from_toml(heap: Heap, text: &str) -> Result<SiteConfig, ConfigError>
        ensures read { IfOk result (λ config. config_of text.now ≡ Ok config) }
        ensures refused { IfErr result (λ e. e ≢ ConfigError.Memory → config_of text.now ≡ Err e) }
    {
        let document = match document_of(heap, text) {
            Ok(document) => document,
            Err(ReadersError::Memory) => return Err(ConfigError::Memory),
            Err(_) => return Err(ConfigError::BadToml),
        };
        SiteConfig::from_document(heap, &document)
    }

    /// The same of a document.
    pub(crate) fn from_document(heap: Heap, document: &Table) -> Result<SiteConfig, ConfigError>
        ensures read { IfOk result (λ config.
            config_of_document (table_view document.now) ≡ Ok config) }
        ensures refused { IfErr result (λ e. e ≢ ConfigError.Memory
            → config_of_document (table_view document.now) ≡ Err e) }
    {
        let readers = match readers_of_document(heap, document) {
            Ok(readers) => readers,
            Err(ReadersError::Memory) => return Err(ConfigError::Memory),
            Err(e) => return Err(ConfigError::BadReaders(e)),
        };
        let (settings, pages) = settings_and_pages(heap, document)?;
        Ok(SiteConfig {
            keep_alive: settings.keep_alive,
            cache: settings.cache,
            entities: settings.entities,
            markdown: settings.markdown,
            readers,
            pages,
            browse: None,
        })
    }
}

/// The settings and the pages of a document, whatever its readers are.
fn settings_and_pages(
    heap: Heap,
    document: &Table,
) -> Result<(Settings, List<PageRow>), ConfigError>
    ensures read { IfOk result (λ parts. (readers : ReaderTable)
        → config_beside readers (table_view document.now)
        ≡ Ok (config_with parts.0 readers parts.1)) }
    ensures refused { IfErr result (λ e. e ≢ ConfigError.Memory → (readers : ReaderTable)
        → config_beside readers (table_view document.now) ≡ Err e) }
{
    let Some(settings) = settings_in(heap, document)? else {
        return Err(ConfigError::BadSetting);
    };
    let Some(tables) = tables_at(document, "page") else {
        return Err(ConfigError::BadSetting);
    };
    let pages = pages_of(heap, tables)?;
    Ok((settings, pages))
}
