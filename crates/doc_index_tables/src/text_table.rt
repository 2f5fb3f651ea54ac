//! Values by text.

ghost use Rattle.std.specs.Prelude.{◌≡◌, ◌≤◌, None, false, true, MatchOption, OnOk, OnErr, OnSome, length, option_copied};
ghost use Rattle.std.specs.Borrow.{LendsSo, sem};
ghost use Rattle.std.specs.FinMap as map;
ghost use Rattle.std.specs.Option.{option_copied_mut};
ghost use Rattle.doc_index_tables.specs.ShortTexts.{has_number, number_of};
ghost use Rattle.doc_index_tables.specs.contracts.text_table.TextTable.{the_row};

use doc_page_parts::failure::Memory;
use doc_page_parts::heap::{BTreeMap, Heap, String};
use std::marker::Model;

/// How many bytes a short text has at most.
const SHORT_LIMIT: usize = 15;

/// Values by text. A text of at most 15 bytes stands in place, as a number of 16 bytes, and a longer one on the heap. Contracts see the
/// map.
#[derive(Drop)]
pub struct TextTable<V> {
    short: BTreeMap<u128, V>,
    long: BTreeMap<String, V>,
}

impl<V> Model for TextTable<V> {
    ghost use Rattle.std.specs.Coded.{coded_ℕ, coded_list};
    ghost use Rattle.std.specs.FinMap as map;
    ghost use Rattle.doc_index_tables.specs.Maps.{TextMap};
    ghost use Rattle.doc_index_tables.specs.TextTables.{both_kinds};

    ghost Value = { TextMap V };

    ghost coded = { map.code (coded_list coded_ℕ) V.code };

    ghost view = { λ t. both_kinds t.short.entries t.long.entries };
}

impl<V> TextTable<V> {
    /// A table without texts. It takes no memory.
    pub fn new(heap: Heap) -> TextTable<V>
        ensures { result ≡ map.empty }
    {
        TextTable {
            short: BTreeMap::new(heap),
            long: BTreeMap::new(heap),
        }
    }

    /// The value of a text.
    pub fn get(&self, text: &str) -> Option<&V>
        ensures { option_copied result ≡ map.get self.now text.now }
    {
        match number_of(text) {
            Some(number) => self.short.get(&number),
            None => self.long.get(text),
        }
    }

    /// The value of a text, to be changed.
    pub fn get_mut(&mut self, text: &str) -> Option<&mut V>
        ensures* writes_back { sem 𝓛 (LendsSo (the_row V.row) V.row self.entry result
            (λ table value. OnSome result (table ≡ map.insert self.old text.now value)) (λ table. table ≡ self.old)) }
        ensures value { option_copied_mut result ≡ map.get self.old text.now }
    {
        match number_of(text) {
            Some(number) => self.short.get_mut(&number),
            None => self.long.get_mut(text),
        }
    }

    /// Sets the value of a text.
    pub fn insert(&mut self, heap: Heap, text: &str, value: V) -> Result<(), Memory>
    where
        V: Drop,
        ensures ok { OnOk result (self.new ≡ map.insert self.old text.now value) }
        ensures err { OnErr result (self.new ≡ self.old) }
    {
        match number_of(text) {
            Some(number) => drop(self.short.insert(number, value)?),
            None => drop(self.long.insert(String::from_str(heap, text)?, value)?),
        }
        Ok(())
    }

    /// Takes a text away, if it stands there. It takes no memory.
    pub fn remove(&mut self, text: &str)
    where
        V: Drop,
        ensures { self.new ≡ map.remove self.old text.now }
    {
        match number_of(text) {
            Some(number) => drop(self.short.remove(&number)),
            None => drop(self.long.remove(text)),
        }
    }
}

/// The number of a text, if it is short.
fn number_of(text: &str) -> Option<u128>
    ensures { MatchOption result (has_number text.now ≡ false)
        (λ number. (number ≡ number_of text.now) × (has_number text.now ≡ true)) }
{
    if text.len() > SHORT_LIMIT {
        return None;
    }
    Some(packed(text.as_bytes()))
}

/// A 1 and the bytes behind it, as the digits of one number.
fn packed(bytes: &[u8]) -> u128
    requires { length bytes.now ≤ 15 }
    ensures { result ≡ number_of bytes.now }
{
    let mut number: u128 = 1;
    for byte in bytes {
        number = number * 256 + u128::from(*byte);
    }
    number
}
