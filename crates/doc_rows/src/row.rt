//! Ordered sets of paths.

ghost use Rattle.std.specs.Prelude.{◌≡◌, OnOk, OnErr, option_copied, string_bytes};
ghost use Rattle.std.specs.FinMap as map;
ghost use Rattle.doc_rows.specs.Looks.{first_from, last_before};

use doc_page_parts::failure::Memory;
use doc_page_parts::heap::{BTreeMap, Heap, String};
use doc_page_parts::path::Path;
use std::marker::Model;

/// A set of paths, kept as texts so that it can be asked from any text on. Contracts see the set as a map.
#[derive(Drop)]
pub struct Row {
    paths: BTreeMap<String, ()>,
}

impl Model for Row {
    ghost use Rattle.std.specs.Coded.{coded_ℕ, coded_list};
    ghost use Rattle.std.specs.FinMap as map;
    ghost use Rattle.std.specs.FinSet as set;
    ghost use Rattle.doc_index_tables.specs.Maps.{text_map};
    ghost use Rattle.doc_rows.specs.Rows.{TextSet};

    ghost Value = { TextSet };

    ghost coded = { set.code (coded_list coded_ℕ) };

    ghost view = { λ r. text_map r.paths };
}

impl Row {
    /// A row without paths. It takes no memory.
    pub fn new(heap: Heap) -> Row
        ensures { result ≡ map.empty }
    {
        Row {
            paths: BTreeMap::new(heap),
        }
    }

    pub fn len(&self) -> usize
        ensures { result ≡ map.len self.now }
    {
        self.paths.len()
    }

    /// The first path that doesn't come before a text.
    pub fn first(&self, from: &String) -> Option<&str>
        ensures { option_copied result ≡ first_from (string_bytes from.now) (map.keys self.now) }
    {
        let (path, _) = self.paths.range(from..).next()?;
        Some(path.as_str())
    }

    /// The last path that comes before a text.
    pub fn last(&self, before: &String) -> Option<&str>
        ensures { option_copied result ≡ last_before (string_bytes before.now) (map.keys self.now) }
    {
        let (path, _) = self.paths.range(..before).next_back()?;
        Some(path.as_str())
    }

    /// Adds a copy of a path, unless it stands.
    pub fn add(&mut self, heap: Heap, path: &Path) -> Result<(), Memory>
        ensures ok { OnOk result (self.new ≡ map.insert self.old path.now tt) }
        ensures err { OnErr result (self.new ≡ self.old) }
    {
        self.paths.insert(String::from_str(heap, path.text())?, ())?;
        Ok(())
    }

    /// Takes a path out, if it stands. It takes no memory.
    pub fn remove(&mut self, path: &Path)
        ensures { self.new ≡ map.remove self.old path.now }
    {
        self.paths.remove(path.text());
    }
}
