//! Texts with numbers, packed.

ghost use Rattle.std.specs.Prelude.{◌≡◌, ◌∷◌, ◌++◌, ◌<◌, [], IfOk, OnOk, length, slice_index_or, string_bytes};
ghost use Rattle.doc_index_tables.specs.Maps.{by_bytes, shown};
ghost use Rattle.doc_index_tables.specs.Packed.{IsPacked, start_of, unpacked};

use crate::pairs::Pairs;
use doc_page_parts::failure::Memory;
use doc_page_parts::heap::{BTreeMap, Heap, String};
use std::marker::Model;

/// Texts, each with a number, one after another in one text with their ends. Contracts see the list.
#[derive(Drop)]
pub struct Packed {
    texts: String,
    ends: Pairs,
}

impl Model for Packed {
    ghost use Rattle.std.specs.Prelude.{ℕ, List as Seq, string_bytes};
    ghost use Rattle.doc_index_tables.specs.Packed.{IsPacked, unpacked};

    ghost Value = { Seq (Seq ℕ × ℕ) };

    ghost view = { λ p. unpacked (string_bytes p.texts) 0 p.ends };

    ghost invariant = { λ p. IsPacked (string_bytes p.texts) 0 p.ends };
}

impl Packed {
    /// Nothing yet. It takes no memory.
    pub fn new(heap: Heap) -> Packed
        ensures { result ≡ [] }
    {
        Packed {
            texts: String::new(heap),
            ends: Pairs::new(heap),
        }
    }

    /// The texts of a map with their numbers, in its order.
    pub fn copy_of(heap: Heap, keys: &BTreeMap<String, u64>) -> Result<Packed, Memory>
        ensures { IfOk result (λ packed. packed ≡ by_bytes keys.now.entries) }
    {
        let mut texts = String::with_capacity(heap, room_of(keys))?;
        let mut ends = Pairs::with_capacity(heap, keys.len())?;
        for (key, count) in keys.iter() {
            push(&mut texts, &mut ends, key.as_str(), *count)?;
        }
        Ok(Packed { texts, ends })
    }

    /// These texts with their numbers.
    pub fn of_entries(heap: Heap, entries: &[(&str, u64)]) -> Result<Packed, Memory>
        ensures { IfOk result (λ packed. packed ≡ shown entries.now) }
    {
        let mut texts = String::with_capacity(heap, room_for(entries))?;
        let mut ends = Pairs::with_capacity(heap, entries.len())?;
        for (text, number) in entries {
            push(&mut texts, &mut ends, text, *number)?;
        }
        Ok(Packed { texts, ends })
    }

    /// The same again.
    pub fn copy(&self, heap: Heap) -> Result<Packed, Memory>
        ensures { IfOk result (λ packed. packed ≡ self.now) }
    {
        Ok(Packed {
            texts: String::from_str(heap, self.texts.as_str())?,
            ends: self.ends.copy(heap)?,
        })
    }

    /// How many texts there are.
    pub fn len(&self) -> usize
        ensures { result ≡ length self.now }
    {
        self.ends.len()
    }

    /// The text and the number at a place.
    pub fn get(&self, at: usize) -> (&str, u64)
        requires { at < length self.now }
        ensures { (result.0.now, result.1)
            ≡ slice_index_or self.now at (result.0.now, result.1) }
    {
        let start = start_of(&self.ends, at);
        let (end, number) = self.ends.at(at);
        (&self.texts.as_str()[start..end as usize], number)
    }
}

/// Where the text of a place begins: where the one before it ends.
fn start_of(ends: &Pairs, at: usize) -> usize
    requires { at < length ends.now }
    ensures { result ≡ start_of 0 ends.now at }
{
    if at == 0 {
        return 0;
    }
    ends.at(at - 1).0 as usize
}

/// How many bytes the texts take.
fn room_of(keys: &BTreeMap<String, u64>) -> usize {
    let mut room: usize = 0;
    for key in keys.keys() {
        room = room.saturating_add(key.len());
    }
    room
}

/// How many bytes these texts take.
fn room_for(entries: &[(&str, u64)]) -> usize {
    let mut room: usize = 0;
    for (text, _) in entries {
        room = room.saturating_add(text.len());
    }
    room
}

/// Adds a text with its number.
fn push(texts: &mut String, ends: &mut Pairs, text: &str, number: u64) -> Result<(), Memory>
    requires { IsPacked (string_bytes texts.old) 0 ends.old }
    ensures packed { OnOk result (IsPacked (string_bytes texts.new) 0 ends.new) }
    ensures added { OnOk result (unpacked (string_bytes texts.new) 0 ends.new
        ≡ unpacked (string_bytes texts.old) 0 ends.old ++ (text.now, number) ∷ []) }
{
    texts.push_str(text)?;
    ends.push((texts.as_str().len() as u64, number))
}
