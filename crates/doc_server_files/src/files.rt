//! The files that the arguments and a configuration name.

ghost use Rattle.std.specs.Prelude.{◌≡◌, Ok, IfOk};
ghost use Rattle.toml.specs.View.{table_view};
ghost use Rattle.doc_server_config.specs.Configurations.{config_of_document};

use doc_lines::entities::Entities;
use doc_page_parts::failure::Memory;
use doc_page_parts::heap::{Heap, String, Vec};
use doc_page_parts::list::List;
use doc_page_parts::text::Text;
use doc_server::entity_table::entities_of;
use doc_server_config::config::{ConfigError, SiteConfig};
use doc_server_config::document::Document;
use doc_server_config::page_row::{PageRow, Source};
use doc_server_streams::fault::Fault;
use doc_server_streams::read_from::ReadFrom;
use doc_server_streams::whole_input::{cannot_read, read_text};
use std::fs::File;
use std::rt::Files;

/// A configured site, with what stands in the files that its configuration names.
#[derive(Drop)]
pub struct Site {
    pub pages: Pages,
    /// The built-in entities, and those of the table that is named.
    pub entities: Entities,
}

/// A configuration with the texts of its pages' files.
#[derive(Drop)]
pub struct Pages {
    pub config: SiteConfig,
    /// The texts of the pages that name a file, in the order of these pages.
    pub texts: List<Text>,
}

/// What stands in the files that a configuration names.
#[derive(Drop)]
struct FileTexts {
    texts: List<Text>,
    entities: Entities,
}

/// The site of the configuration of this name. All files are read before the table of entities is looked at.
pub fn read_site<R: AllocGlobal + Files>(rt: &R, name: &str) -> Result<Site, Fault> {
    let heap = rt.alloc();
    let text = read_file(rt, heap, name)?;
    let config = config_of(heap, &document_of(heap, &text)?)?;
    site_of(rt, heap, config)
}

/// The site of a configuration.
pub fn site_of<R: Files>(rt: &R, heap: Heap, config: SiteConfig) -> Result<Site, Fault>
    ensures { IfOk result (λ site. site.pages.config ≡ config) }
{
    let FileTexts { texts, entities } = read_named(rt, heap, &config)?;
    Ok(Site {
        pages: Pages { config, texts },
        entities,
    })
}

/// What stands in the files that a configuration names.
fn read_named<R: Files>(rt: &R, heap: Heap, config: &SiteConfig) -> Result<FileTexts, Fault> {
    let table = read_table(rt, heap, config)?;
    let texts = read_pages(rt, heap, config.pages.get())?;
    let entities = match table {
        None => Entities::built_in(),
        Some(table) => entities_of(heap, &table)?,
    };
    Ok(FileTexts {
        texts,
        entities: entities.with_options(config.markdown.options),
    })
}

/// A file that is read.
pub fn open_file<R: Files>(rt: &R, heap: Heap, name: &str) -> Result<ReadFrom<R::File>, Fault> {
    match File::open(rt, name) {
        Ok(file) => Ok(ReadFrom::new(file)),
        Err(_) => Err(cannot_read(heap, name)),
    }
}

/// The text of a file.
pub fn read_file<R: Files>(rt: &R, heap: Heap, name: &str) -> Result<String, Fault> {
    let mut input = open_file(rt, heap, name)?;
    read_text(heap, name, &mut input)
}

/// The document that the text of a configuration is.
pub fn document_of(heap: Heap, text: &str) -> Result<Document, Fault> {
    match Document::of(heap, text) {
        Ok(document) => Ok(document),
        Err(e) => Err(fault_of(e)),
    }
}

/// The configuration that a document is.
pub fn config_of(heap: Heap, document: &Document) -> Result<SiteConfig, Fault>
    ensures { IfOk result (λ config.
        config_of_document (table_view document.now.table) ≡ Ok config) }
{
    match document.config(heap) {
        Ok(config) => Ok(config),
        Err(e) => Err(fault_of(e)),
    }
}

fn fault_of(e: ConfigError) -> Fault {
    match e {
        ConfigError::Memory => Fault::Memory,
        _ => Fault::Config,
    }
}

/// The text of the table of entities, where one is named.
fn read_table<R: Files>(rt: &R, heap: Heap, config: &SiteConfig) -> Result<Option<String>, Fault> {
    match &config.entities {
        None => Ok(None),
        Some(name) => Ok(Some(read_file(rt, heap, name.get())?)),
    }
}

/// The texts of the pages that name a file.
fn read_pages<R: Files>(rt: &R, heap: Heap, pages: &[PageRow]) -> Result<List<Text>, Fault> {
    let mut texts = Vec::new(heap);
    for page in pages {
        if let Source::File(name) = &page.source {
            let text = Text::new(read_file(rt, heap, name.get())?);
            texts.push(text).map_err(Memory::from)?;
        }
    }
    Ok(List::new(texts))
}
