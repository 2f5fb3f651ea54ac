//! Rows of numbers by text.

ghost use Rattle.std.specs.Prelude.{◌≡◌, ◌≢◌, None, OnOk, OnErr, option_copied};
ghost use Rattle.std.specs.FinMap as map;
ghost use Rattle.doc_index_tables.specs.TableSteps.{left_in_row, number_at, with_number, without_number};

use crate::row::Row;
use crate::text_table::TextTable;
use doc_page_parts::failure::Memory;
use doc_page_parts::heap::Heap;
use std::marker::Model;

/// Numbers by text and number: a row for each text that has one. Contracts see the map of the rows.
#[derive(Drop)]
pub struct Table {
    rows: TextTable<Row>,
}

impl Model for Table {
    ghost use Rattle.std.specs.Prelude.{ℕ};
    ghost use Rattle.std.specs.Coded.{coded_ℕ, coded_list};
    ghost use Rattle.std.specs.FinMap as map;
    ghost use Rattle.doc_index_tables.specs.TableSteps.{NumberTable};

    ghost Value = { NumberTable };

    ghost coded = { map.code (coded_list coded_ℕ) (map.code coded_ℕ coded_ℕ) };

    ghost view = { λ t. t.rows };
}

impl Table {
    /// A table without rows. It takes no memory.
    pub fn new(heap: Heap) -> Table
        ensures { result ≡ map.empty }
    {
        Table {
            rows: TextTable::new(heap),
        }
    }

    /// The numbers of a text.
    pub fn row(&self, text: &str) -> Option<&Row>
        ensures { option_copied result ≡ map.get self.now text.now }
    {
        self.rows.get(text)
    }

    /// The number of a text and a number.
    pub fn get(&self, text: &str, number: u64) -> Option<u64>
        ensures { result ≡ number_at self.now text.now number }
    {
        self.row(text)?.get(number)
    }

    /// Sets the number of a text and a number.
    pub fn set(&mut self, heap: Heap, text: &str, number: u64, value: u64) -> Result<(), Memory>
        ensures ok { OnOk result (self.new ≡ with_number self.old text.now number value) }
        ensures err { OnErr result (self.new ≡ self.old) }
    {
        let Some(row) = self.rows.get_mut(text) else {
            return self.set_first(heap, text, number, value);
        };
        row.set(number, value)
    }

    /// Sets a number of a text that has no row.
    fn set_first(&mut self, heap: Heap, text: &str, number: u64, value: u64) -> Result<(), Memory>
        requires { map.get self.old text.now ≡ None }
        ensures ok { OnOk result (self.new ≡ with_number self.old text.now number value) }
        ensures err { OnErr result (self.new ≡ self.old) }
    {
        let mut row = Row::new(heap);
        row.set(number, value)?;
        self.rows.insert(heap, text, row)
    }

    /// Takes the number of a text and a number away, if there is one, and the row once it is empty.
    /// It takes no memory.
    pub fn take(&mut self, text: &str, number: u64)
        ensures { self.new ≡ without_number self.old text.now number }
    {
        if self.take_in_row(text, number) == 0 {
            self.rows.remove(text);
        }
    }

    /// Takes a number out of the row of a text, and tells how many are left in it.
    fn take_in_row(&mut self, text: &str, number: u64) -> usize
        ensures left { result ≡ map.len (left_in_row self.old text.now number) }
        ensures rest { map.remove self.new text.now ≡ map.remove self.old text.now }
        ensures row { result ≢ 0
            → self.new ≡ map.insert self.old text.now (left_in_row self.old text.now number) }
    {
        let Some(row) = self.rows.get_mut(text) else {
            return 0;
        };
        row.take(number);
        row.len()
    }
}
