//! The settings of a site.

ghost use Rattle.std.specs.Prelude.{◌≡◌, IfOk, codes};
ghost use Rattle.toml.specs.Data.{as_integer, get_member};
ghost use Rattle.toml.specs.View.{table_view};
ghost use Rattle.doc_server_config.specs.Markdown.{markdown_at};
ghost use Rattle.doc_server_config.specs.Settings.{cache_at, capacity_of, entities_at, keep_alive_at, settings_in};

use crate::markdown::{Markdown, markdown_in};
use crate::table::value_at;
use doc_page_parts::failure::Memory;
use doc_page_parts::heap::Heap;
use doc_page_parts::text::Text;
use toml::Table;

/// How many filled pages a cache keeps, where a configuration doesn't say.
const CACHE: usize = 64;

/// The settings of a site.
#[derive(Drop)]
pub struct Settings {
    /// Whether connections are kept after a reply. Without the key they are.
    pub keep_alive: bool,
    /// How many filled pages are kept: 1 to 4,096, and 64 without the key.
    pub cache: usize,
    /// The file of a table of entities (HTML, section 13.5), as it is to be opened.
    pub entities: Option<Text>,
    /// How texts are read. Without the table `markdown` they are read as they stand, by CommonMark alone.
    pub markdown: Markdown,
}

/// The settings of a document. `None` says that one of their keys holds what it may not.
pub(crate) fn settings_in(heap: Heap, document: &Table) -> Result<Option<Settings>, Memory>
    ensures { IfOk result (λ settings. settings ≡ settings_in (table_view document.now)) }
{
    let Some(keep_alive) = keep_alive_in(document) else {
        return Ok(None);
    };
    let Some(cache) = cache_in(document) else {
        return Ok(None);
    };
    let Some(entities) = entities_in(heap, document)? else {
        return Ok(None);
    };
    let Some(markdown) = markdown_in(document) else {
        return Ok(None);
    };
    Ok(Some(Settings {
        keep_alive,
        cache,
        entities,
        markdown,
    }))
}

fn keep_alive_in(document: &Table) -> Option<bool>
    ensures { result ≡ keep_alive_at (get_member (codes "keep_alive") (table_view document.now)) }
{
    match value_at(document, "keep_alive") {
        None => Some(true),
        Some(value) => value.as_bool(),
    }
}

fn cache_in(document: &Table) -> Option<usize>
    ensures { result ≡ cache_at (get_member (codes "cache") (table_view document.now)) }
{
    match value_at(document, "cache") {
        None => Some(CACHE),
        Some(value) => capacity_of(value.as_integer()?),
    }
}

/// The capacity that a number is: 1 to 4,096.
fn capacity_of(number: i64) -> Option<usize>
    ensures { result ≡ capacity_of number }
{
    if number < 1 || number > 4_096 {
        return None;
    }
    Some(number as usize)
}

fn entities_in(heap: Heap, document: &Table) -> Result<Option<Option<Text>>, Memory>
    ensures { IfOk result (λ file.
        file ≡ entities_at (get_member (codes "entities") (table_view document.now))) }
{
    let Some(value) = value_at(document, "entities") else {
        return Ok(Some(None));
    };
    let Some(file) = value.as_str() else {
        return Ok(None);
    };
    Ok(Some(Some(Text::copy_of(heap, file)?)))
}
