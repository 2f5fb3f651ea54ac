//! The folders of a configuration.

ghost use Rattle.std.specs.Prelude.{◌≡◌, ◌≢◌, [], Ok, Err, IfOk, IfErr, codes};
ghost use Rattle.toml.specs.Data.{get};
ghost use Rattle.toml.specs.View.{items_view, view};
ghost use Rattle.doc_server_config.specs.Folders.{file_at, folder_of, folders_from, has_other_key, prefix_at};

use crate::except::except_in;
use crate::file_name::is_prefix;
use crate::folder_rules::{FolderRules, rules_of};
use crate::growth::push;
use crate::listening::ListeningError;
use crate::media_names::media_in;
use crate::table::has_only;
use doc_page_parts::failure::Memory;
use doc_page_parts::heap::{Heap, String, Vec};
use doc_page_parts::list::List;
use doc_page_parts::text::Text;
use doc_store::groups::Groups;
use doc_store_readers::tables::groups_in;
use std::fmt;
use toml::Value;

/// The keys of a folder.
const KEYS: &[&str] = &[
    "except", "groups", "media", "names", "on_bad", "path", "prefix", "readme",
];

/// Why a table is no folder.
#[derive(Clone, Copy, Debug)]
pub enum FolderFault {
    /// It has a key other than `path`, `prefix`, `groups`, `except`, `media`, `names`, `readme` and `on_bad`.
    OtherKey,
    /// `path` isn't there, or no string.
    BadFile,
    /// `prefix` is no string, or none that makes a path of a page.
    BadPrefix,
    /// `groups` is no array of names of groups, or has too many.
    BadGroups,
    /// `except` is no array of names of folders.
    BadExcept,
    /// `media` is neither `true` nor an array of extensions of media.
    BadMedia,
    /// `names` isn't `nfc`.
    BadNames,
    /// `readme` is no boolean.
    BadReadme,
    /// `on_bad` is neither `stop` nor `skip`.
    BadOnBad,
}

impl fmt::Display for FolderFault {
    fn fmt<W: fmt::Write>(&self, f: &mut fmt::Formatter<W>) -> fmt::Result {
        f.write_str(match self {
            FolderFault::OtherKey => "a key is unknown",
            FolderFault::BadFile => "`path` is bad",
            FolderFault::BadPrefix => "`prefix` is bad",
            FolderFault::BadGroups => "`groups` is bad",
            FolderFault::BadExcept => "`except` is bad",
            FolderFault::BadMedia => "`media` is bad",
            FolderFault::BadNames => "`names` is bad",
            FolderFault::BadReadme => "`readme` is bad",
            FolderFault::BadOnBad => "`on_bad` is bad",
        })
    }
}

/// A folder whose files are pages.
pub struct Folder {
    /// The name of the folder, as it is to be opened.
    pub file: Text,
    /// What stands before the slash in front of the name of each file; empty where the names alone are paths.
    pub prefix: Text,
    /// The groups whose readers see the pages.
    pub groups: Groups,
    /// The names of the folders in it that are passed over, with all that stands below them.
    pub except: List<Text>,
    /// The extensions of the files that are media, in lower case, where there are media.
    pub media: Option<List<Text>>,
    pub rules: FolderRules,
}

/// Written out, so that it is proved here once: what a derived drop does is proved wherever a value is let go.
impl Drop for Folder {
    fn drop(self) {
        let Folder {
            file: _,
            prefix: _,
            groups: _,
            except: _,
            media: _,
            rules: _,
        } = self;
    }
}

/// The folders of tables, or the first table that is none, counted from 1.
pub(crate) fn folders_of(heap: Heap, tables: &[Value]) -> Result<List<Folder>, ListeningError>
    ensures read { IfOk result (λ folders. folders_from [] 1 (items_view tables.now) ≡ Ok folders) }
    ensures refused { IfErr result (λ e. e ≢ ListeningError.Memory
        → folders_from [] 1 (items_view tables.now) ≡ Err e) }
{
    let mut folders = Vec::with_capacity(heap, tables.len()).map_err(Memory::from)?;
    for (index, table) in tables.iter().enumerate() {
        match folder_of(heap, table)? {
            Ok(folder) => push(&mut folders, folder)?,
            Err(fault) => return Err(ListeningError::BadFolder(index + 1, fault)),
        }
    }
    Ok(List::new(folders))
}

/// The folder that a table is, or its first fault.
fn folder_of(heap: Heap, table: &Value) -> Result<Result<Folder, FolderFault>, Memory>
    ensures { IfOk result (λ folder. folder ≡ folder_of (view table.now)) }
{
    if has_other_key(table) {
        return Ok(Err(FolderFault::OtherKey));
    }
    let Some(file) = file_in(heap, table)? else {
        return Ok(Err(FolderFault::BadFile));
    };
    let Some(prefix) = prefix_in(heap, table)? else {
        return Ok(Err(FolderFault::BadPrefix));
    };
    let Some(groups) = groups_in(heap, table)? else {
        return Ok(Err(FolderFault::BadGroups));
    };
    let Some(except) = except_in(heap, table)? else {
        return Ok(Err(FolderFault::BadExcept));
    };
    let Some(media) = media_in(heap, table)? else {
        return Ok(Err(FolderFault::BadMedia));
    };
    match rules_of(table) {
        Ok(rules) => Ok(Ok(Folder {
            file,
            prefix,
            groups,
            except,
            media,
            rules,
        })),
        Err(fault) => Ok(Err(fault)),
    }
}

fn has_other_key(table: &Value) -> bool
    ensures { result ≡ has_other_key (view table.now) }
{
    match table.as_table() {
        Some(table) => !has_only(table, KEYS),
        None => false,
    }
}

fn file_in(heap: Heap, table: &Value) -> Result<Option<Text>, Memory>
    ensures { IfOk result (λ file. file ≡ file_at (get (codes "path") (view table.now))) }
{
    let Some(value) = table.get("path") else {
        return Ok(None);
    };
    let Some(text) = value.as_str() else {
        return Ok(None);
    };
    Ok(Some(Text::copy_of(heap, text)?))
}

fn prefix_in(heap: Heap, table: &Value) -> Result<Option<Text>, Memory>
    ensures { IfOk result (λ prefix. prefix ≡ prefix_at (get (codes "prefix") (view table.now))) }
{
    let Some(value) = table.get("prefix") else {
        return Ok(Some(Text::new(String::new(heap))));
    };
    let Some(text) = value.as_str() else {
        return Ok(None);
    };
    if !is_prefix(heap, text)? {
        return Ok(None);
    }
    Ok(Some(Text::copy_of(heap, text)?))
}
