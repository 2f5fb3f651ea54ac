//! Which row has a text.

ghost use Rattle.std.specs.Prelude.{◌≡◌, OnOk, option_copied};
ghost use Rattle.std.specs.FinMap as map;

use doc_page_parts::failure::Memory;
use doc_page_parts::heap::{BTreeMap, Heap};
use doc_page_parts::text::Text;
use std::marker::Model;

/// The rows that have a text, by it. Contracts see the map.
#[derive(Drop)]
pub(crate) struct Rows {
    entries: BTreeMap<Text, usize>,
}

impl Model for Rows {
    ghost use Rattle.std.specs.Prelude.{ℕ};
    ghost use Rattle.std.specs.Coded.{coded_ℕ, coded_list};
    ghost use Rattle.std.specs.FinMap as map;
    ghost use Rattle.doc_store_readers.specs.Maps.{TextMap};

    ghost Value = { TextMap ℕ };

    ghost coded = { map.code (coded_list coded_ℕ) coded_ℕ };

    ghost view = { λ r. map.from_entries r.entries.entries };
}

impl Rows {
    pub(crate) fn none(heap: Heap) -> Rows
        ensures { result ≡ map.empty }
    {
        Rows {
            entries: BTreeMap::new(heap),
        }
    }

    /// Says that a row has a text.
    pub(crate) fn insert(&mut self, text: Text, row: usize) -> Result<(), Memory>
        ensures { OnOk result (self.new ≡ map.insert self.old text row) }
    {
        self.entries.insert(text, row)?;
        Ok(())
    }

    /// The last row that has a text.
    pub(crate) fn row_of(&self, text: &Text) -> Option<usize>
        ensures { result ≡ map.get self.now text.now }
    {
        match self.entries.get(text) {
            Some(row) => Some(*row),
            None => None,
        }
    }

    /// Whether a row has a text.
    pub(crate) fn has(&self, text: &Text) -> bool
        ensures { result ≡ map.contains_key self.now text.now }
    {
        self.row_of(text).is_some()
    }
}
