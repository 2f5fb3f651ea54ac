//! The pages of a configuration.

ghost use Rattle.std.specs.Prelude.{◌≡◌, ◌≢◌, [], Ok, Err, IfOk, IfErr, codes, option_map};
ghost use Rattle.toml.specs.Data.{get};
ghost use Rattle.toml.specs.View.{items_view, view};
ghost use Rattle.doc_server_config.specs.PageRows.{page_of, pages_from, path_at, source_of};

use crate::config::ConfigError;
use crate::growth::push;
use doc_page_parts::failure::Memory;
use doc_page_parts::heap::{Heap, Vec};
use doc_page_parts::list::List;
use doc_page_parts::path::{Path, PathError};
use doc_page_parts::text::Text;
use doc_store::groups::Groups;
use doc_store_readers::tables::groups_in;
use toml::Value;

/// Where the text of a page stands.
#[derive(Drop)]
pub enum Source {
    /// In the configuration: this is the text.
    Text(Text),
    /// In the file of this name, as it is to be opened.
    File(Text),
}

/// A page of a configuration.
pub struct PageRow {
    pub path: Path,
    /// The groups whose readers see the page.
    pub groups: Groups,
    pub source: Source,
}

/// Written out, so that it is proved here once: what a derived drop does is proved wherever a value is let go.
impl Drop for PageRow {
    fn drop(self) {
        let PageRow {
            path: _,
            groups: _,
            source: _,
        } = self;
    }
}

/// The pages of tables, or the first table that is none, counted from 1.
pub(crate) fn pages_of(heap: Heap, tables: &[Value]) -> Result<List<PageRow>, ConfigError>
    ensures read { IfOk result (λ pages. pages_from [] 1 (items_view tables.now) ≡ Ok pages) }
    ensures refused { IfErr result (λ e. e ≢ ConfigError.Memory
        → pages_from [] 1 (items_view tables.now) ≡ Err e) }
{
    let mut pages = Vec::with_capacity(heap, tables.len()).map_err(Memory::from)?;
    for (index, table) in tables.iter().enumerate() {
        let Some(page) = page_of(heap, table)? else {
            return Err(ConfigError::BadPage(index + 1));
        };
        push(&mut pages, page)?;
    }
    Ok(List::new(pages))
}

/// The page that a table is.
fn page_of(heap: Heap, table: &Value) -> Result<Option<PageRow>, Memory>
    ensures { IfOk result (λ page. page ≡ page_of (view table.now)) }
{
    let Some(path) = path_in(heap, table)? else {
        return Ok(None);
    };
    let Some(groups) = groups_in(heap, table)? else {
        return Ok(None);
    };
    let Some(source) = source_in(heap, table)? else {
        return Ok(None);
    };
    Ok(Some(PageRow {
        path,
        groups,
        source,
    }))
}

fn path_in(heap: Heap, table: &Value) -> Result<Option<Path>, Memory>
    ensures { IfOk result (λ path. path ≡ path_at (get (codes "path") (view table.now))) }
{
    let Some(value) = table.get("path") else {
        return Ok(None);
    };
    let Some(text) = value.as_str() else {
        return Ok(None);
    };
    match Path::new(heap, text) {
        Ok(path) => Ok(Some(path)),
        Err(PathError::BadPath) => Ok(None),
        Err(PathError::Memory) => Err(Memory),
    }
}

fn source_in(heap: Heap, table: &Value) -> Result<Option<Source>, Memory>
    ensures { IfOk result (λ source.
        source ≡ source_of (get (codes "text") (view table.now))
        (get (codes "file") (view table.now))) }
{
    match (table.get("text"), table.get("file")) {
        (Some(text), None) => match text.as_str() {
            Some(text) => Ok(Some(Source::Text(Text::copy_of(heap, text)?))),
            None => Ok(None),
        },
        (None, Some(file)) => match file.as_str() {
            Some(file) => Ok(Some(Source::File(Text::copy_of(heap, file)?))),
            None => Ok(None),
        },
        _ => Ok(None),
    }
}
