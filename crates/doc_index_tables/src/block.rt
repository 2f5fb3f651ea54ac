//! A few numbers by number.

ghost use Rattle.std.specs.Prelude.{◌≡◌, ◌++◌, ◌<◌, ◌≤◌, ◌/◌, IfOk, OnOk, OnErr, drop, slice_index_or, take};
ghost use Rattle.std.specs.FinMap as map;
ghost use Rattle.std.specs.FinMap.{put};
ghost use Rattle.std.specs.Ordering.{nat_cmp};
ghost use Rattle.doc_index_tables.specs.Blocks.{IsBlock, begins_by, block_limit};

use crate::pairs::Pairs;
use doc_page_parts::failure::Memory;
use doc_page_parts::heap::Heap;
use std::marker::Model;

/// A few numbers by number: one list, of which an insertion moves all that stands behind it. Contracts see the map.
#[derive(Drop)]
pub struct Block {
    entries: Pairs,
}

impl Model for Block {
    ghost use Rattle.std.specs.Prelude.{ℕ, T};
    ghost use Rattle.std.specs.Coded.{coded_ℕ};
    ghost use Rattle.std.specs.FinMap as map;
    ghost use Rattle.std.specs.Ordering.{nat_cmp};
    ghost use Rattle.doc_index_tables.specs.Maps.{NumberMap};

    ghost Value = { NumberMap ℕ };

    ghost coded = { map.code coded_ℕ coded_ℕ };

    ghost view = { λ r. map.from_sorted r.entries };

    ghost invariant = { λ r. T (map.is_sorted nat_cmp r.entries) };
}

impl Block {
    /// A block without numbers. It takes no memory.
    pub fn new(heap: Heap) -> Block
        ensures { result ≡ map.empty }
    {
        Block {
            entries: Pairs::new(heap),
        }
    }

    /// A block without numbers, with room for so many small ones.
    pub fn with_capacity(heap: Heap, count: usize) -> Result<Block, Memory>
        ensures { IfOk result (λ block. block ≡ map.empty) }
    {
        Ok(Block {
            entries: Pairs::with_capacity(heap, count)?,
        })
    }

    /// The heap that it stands on.
    pub fn heap(&self) -> Heap {
        self.entries.heap()
    }

    /// How many numbers have one.
    pub fn len(&self) -> usize
        ensures { result ≡ map.len self.now }
    {
        self.entries.len()
    }

    /// The number of a number.
    pub fn get(&self, number: u64) -> Option<u64>
        ensures { result ≡ map.get self.now number }
    {
        match self.entries.search(number) {
            Ok(at) => Some(self.entries.at(at).1),
            Err(_) => None,
        }
    }

    /// The entry at a place, in the order of the numbers.
    pub fn at(&self, at: usize) -> (u64, u64)
        requires { at < map.len self.now }
        ensures { result ≡ slice_index_or (map.entries self.now) at result }
    {
        self.entries.at(at)
    }

    /// Whether its first number is at most another. That of an empty block isn't.
    pub fn begins_by(&self, number: u64) -> bool
        ensures { result ≡ begins_by number (map.entries self.now) }
    {
        self.entries.len() != 0 && self.entries.at(0).0 <= number
    }

    /// Sets the number of a number.
    pub fn set(&mut self, number: u64, value: u64) -> Result<(), Memory>
        ensures ok { OnOk result (self.new ≡ map.insert self.old number value) }
        ensures err { OnErr result (self.new ≡ self.old) }
    {
        match self.entries.search(number) {
            Ok(at) => self.entries.set(at, (number, value)),
            Err(at) => self.entries.insert(at, (number, value)),
        }
    }

    /// Takes the number of a number away, if it has one. It takes no memory.
    pub fn take(&mut self, number: u64)
        ensures { self.new ≡ map.remove self.old number }
    {
        if let Ok(at) = self.entries.search(number) {
            self.entries.remove(at);
        }
    }

    /// The same numbers and one more, in two blocks, those of the first before those of the second.
    pub fn halves_with(&self, number: u64, value: u64) -> Result<(Block, Block), Memory>
        requires { (2 ≤ map.len self.now) × (map.len self.now ≤ block_limit) }
        ensures blocks { IfOk result (λ halves. IsBlock halves.0 × IsBlock halves.1) }
        ensures numbers { IfOk result (λ halves. map.entries halves.0 ++ map.entries halves.1
            ≡ put nat_cmp number value (map.entries self.now)) }
    {
        let (mut lower, mut upper) = self.halves()?;
        if upper.begins_by(number) {
            upper.set(number, value)?;
            return Ok((lower, upper));
        }
        lower.set(number, value)?;
        Ok((lower, upper))
    }

    /// The same numbers in two blocks.
    fn halves(&self) -> Result<(Block, Block), Memory>
        ensures lower { IfOk result (λ halves. map.entries halves.0 ≡ take (map.len self.now / 2) (map.entries self.now)) }
        ensures upper { IfOk result (λ halves. map.entries halves.1 ≡ drop (map.len self.now / 2) (map.entries self.now)) }
    {
        let half = self.entries.len() / 2;
        let lower = Block {
            entries: self.entries.before(half)?,
        };
        let upper = Block {
            entries: self.entries.behind(half)?,
        };
        Ok((lower, upper))
    }
}
