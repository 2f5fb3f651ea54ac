//! Rows of paths by text.

ghost use Rattle.std.specs.Prelude.{◌≡◌, ◌≢◌, ◌==◌, None, OnOk, OnErr, option_copied, string_bytes};
ghost use Rattle.std.specs.FinMap as map;
ghost use Rattle.doc_rows.specs.Looks.{first_from, last_before};
ghost use Rattle.doc_rows.specs.Rows.{left_in_row, row_at, with_path, without_path};

use crate::row::Row;
use doc_page_parts::failure::Memory;
use doc_page_parts::heap::{BTreeMap, Heap, String};
use doc_page_parts::path::Path;
use std::marker::Model;

/// For each of some texts an ordered set of paths: its row. A row that is empty isn't kept. Contracts see the map of the rows.
#[derive(Drop)]
pub struct Rows {
    rows: BTreeMap<String, Row>,
}

impl Model for Rows {
    ghost use Rattle.std.specs.Coded.{coded_ℕ, coded_list};
    ghost use Rattle.std.specs.FinMap as map;
    ghost use Rattle.std.specs.FinSet as set;
    ghost use Rattle.doc_index_tables.specs.Maps.{text_map};
    ghost use Rattle.doc_rows.specs.Rows.{RowMap};

    ghost Value = { RowMap };

    ghost coded = { map.code (coded_list coded_ℕ) (set.code (coded_list coded_ℕ)) };

    ghost view = { λ r. text_map r.rows };
}

impl Rows {
    /// No rows. It takes no memory.
    pub fn new(heap: Heap) -> Rows
        ensures { result ≡ map.empty }
    {
        Rows {
            rows: BTreeMap::new(heap),
        }
    }

    /// No row is kept.
    pub fn is_empty(&self) -> bool
        ensures { result ≡ (map.len self.now == 0) }
    {
        self.rows.len() == 0
    }

    fn row(&self, row: &str) -> Option<&Row>
        ensures { option_copied result ≡ map.get self.now row.now }
    {
        self.rows.get(row)
    }

    /// The first path of a row that doesn't come before a text.
    pub fn first(&self, row: &str, from: &String) -> Option<&str>
        ensures { option_copied result
            ≡ first_from (string_bytes from.now) (map.keys (row_at self.now row.now)) }
    {
        self.row(row)?.first(from)
    }

    /// The last path of a row that comes before a text.
    pub fn last(&self, row: &str, before: &String) -> Option<&str>
        ensures { option_copied result
            ≡ last_before (string_bytes before.now) (map.keys (row_at self.now row.now)) }
    {
        self.row(row)?.last(before)
    }

    /// Adds a path to a row, unless it stands there.
    pub fn add(&mut self, heap: Heap, row: &str, path: &Path) -> Result<(), Memory>
        ensures ok { OnOk result (self.new ≡ with_path self.old row.now path.now) }
        ensures err { OnErr result (self.new ≡ self.old) }
    {
        let Some(paths) = self.rows.get_mut(row) else {
            return self.add_first(heap, row, path);
        };
        paths.add(heap, path)
    }

    /// Adds the first path of a row.
    fn add_first(&mut self, heap: Heap, row: &str, path: &Path) -> Result<(), Memory>
        requires { map.get self.old row.now ≡ None }
        ensures ok { OnOk result (self.new ≡ with_path self.old row.now path.now) }
        ensures err { OnErr result (self.new ≡ self.old) }
    {
        let mut paths = Row::new(heap);
        paths.add(heap, path)?;
        self.insert(String::from_str(heap, row)?, paths)
    }

    fn insert(&mut self, row: String, paths: Row) -> Result<(), Memory>
        ensures ok { OnOk result (self.new ≡ map.insert self.old (string_bytes row) paths) }
        ensures err { OnErr result (self.new ≡ self.old) }
    {
        self.rows.insert(row, paths)?;
        Ok(())
    }

    /// Takes a path out of a row, if it stands there, and the row once it is empty. It takes no memory.
    pub fn remove(&mut self, row: &str, path: &Path)
        ensures { self.new ≡ without_path self.old row.now path.now }
    {
        if self.take_in_row(row, path) == 0 {
            self.remove_row(row);
        }
    }

    fn remove_row(&mut self, row: &str)
        ensures { self.new ≡ map.remove self.old row.now }
    {
        self.rows.remove(row);
    }

    /// Takes a path out of a row, and tells how many are left in it.
    fn take_in_row(&mut self, row: &str, path: &Path) -> usize
        ensures left { result ≡ map.len (left_in_row self.old row.now path.now) }
        ensures rest { map.remove self.new row.now ≡ map.remove self.old row.now }
        ensures row { result ≢ 0
            → self.new ≡ map.insert self.old row.now (left_in_row self.old row.now path.now) }
    {
        let Some(paths) = self.rows.get_mut(row) else {
            return 0;
        };
        paths.remove(path);
        paths.len()
    }
}
