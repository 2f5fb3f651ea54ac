//! One number by number at most.

ghost use Rattle.std.specs.Prelude.{◌≡◌, ◌∷◌, ◌≤◌, ℕ, [], IfOk, true, false};
ghost use Rattle.std.specs.FinMap as map;
ghost use Rattle.std.specs.Option.{option_to_list};

use crate::block::Block;
use doc_page_parts::failure::Memory;
use doc_page_parts::heap::Heap;
use std::marker::Model;

/// One number by number at most, in place. Contracts see the map.
#[derive(Drop)]
pub struct Single {
    heap: Heap,
    entry: Option<(u64, u64)>,
}

impl Model for Single {
    ghost use Rattle.std.specs.Prelude.{ℕ};
    ghost use Rattle.std.specs.Coded.{coded_ℕ};
    ghost use Rattle.std.specs.FinMap as map;
    ghost use Rattle.std.specs.Option.{option_to_list};
    ghost use Rattle.doc_index_tables.specs.Maps.{NumberMap};

    ghost Value = { NumberMap ℕ };

    ghost coded = { map.code coded_ℕ coded_ℕ };

    ghost view = { λ s. map.from_sorted (option_to_list s.entry) };
}

impl Single {
    /// No number. It takes no memory.
    pub fn new(heap: Heap) -> Single
        ensures { result ≡ map.empty }
    {
        Single { heap, entry: None }
    }

    /// How many numbers have one.
    pub fn len(&self) -> usize
        ensures { result ≡ map.len self.now }
    {
        match self.entry {
            Some(_) => 1,
            None => 0,
        }
    }

    /// The number of a number.
    pub fn get(&self, number: u64) -> Option<u64>
        ensures { result ≡ map.get self.now number }
    {
        let (known, value) = self.entry?;
        if known != number {
            return None;
        }
        Some(value)
    }

    /// The number with its number, if there is one.
    pub fn entry(&self) -> Option<(u64, u64)>
        ensures { option_to_list result ≡ map.entries self.now }
    {
        self.entry
    }

    /// Sets the number of a number, unless another has one, and tells whether it did. It takes no memory.
    pub fn set(&mut self, number: u64, value: u64) -> bool
        ensures set { result ≡ true → self.new ≡ map.insert self.old number value }
        ensures full { result ≡ false → self.new ≡ self.old }
    {
        if self.has_another(number) {
            return false;
        }
        self.entry = Some((number, value));
        true
    }

    /// Whether another number has one. If not, a number that is set stands alone.
    fn has_another(&self, number: u64) -> bool
        ensures { result ≡ false
            → (value : ℕ) → map.from_sorted ((number, value) ∷ []) ≡ map.insert self.now number value }
    {
        match self.entry {
            Some((known, _)) => known != number,
            None => false,
        }
    }

    /// The same with the number of another, as a block.
    pub fn with(&self, number: u64, value: u64) -> Result<Block, Memory>
        ensures block { IfOk result (λ block. block ≡ map.insert self.now number value) }
        ensures few { IfOk result (λ block. map.len block ≤ 2) }
    {
        let mut block = self.block()?;
        block.set(number, value)?;
        Ok(block)
    }

    /// The same as a block, with room for two.
    fn block(&self) -> Result<Block, Memory>
        ensures same { IfOk result (λ block. block ≡ self.now) }
        ensures few { IfOk result (λ block. map.len block ≤ 1) }
    {
        let mut block = Block::with_capacity(self.heap, 2)?;
        let Some((number, value)) = self.entry else {
            return Ok(block);
        };
        block.set(number, value)?;
        Ok(block)
    }

    /// Takes the number of a number away, if it has one. It takes no memory.
    pub fn take(&mut self, number: u64)
        ensures { self.new ≡ map.remove self.old number }
    {
        if self.get(number).is_none() {
            return;
        }
        self.entry = None;
    }
}
