//! Numbers by number.

ghost use Rattle.std.specs.Prelude.{◌≡◌, OnOk, OnErr};
ghost use Rattle.std.specs.FinMap as map;

use crate::block::Block;
use crate::block_entries::BlockEntries;
use crate::blocks::{BLOCK_LIMIT, Blocks};
use crate::entries::Entries;
use crate::single::Single;
use doc_page_parts::failure::Memory;
use doc_page_parts::heap::Heap;
use std::array::from_ref;
use std::marker::Model;

/// Numbers by number. Contracts see the map.
#[derive(Drop)]
pub struct Row {
    kept: Kept,
}

/// One number in place, then one block until it is full, and then many. What was once more stays so.
#[derive(Drop)]
enum Kept {
    Single(Single),
    One(Block),
    Many(Blocks),
}

impl Model for Row {
    ghost use Rattle.std.specs.Prelude.{ℕ};
    ghost use Rattle.std.specs.Coded.{coded_ℕ};
    ghost use Rattle.std.specs.FinMap as map;
    ghost use Rattle.doc_index_tables.specs.Maps.{NumberMap};
    ghost use Rattle.doc_index_tables.specs.Rows.{IsKept, row_of};

    ghost Value = { NumberMap ℕ };

    ghost coded = { map.code coded_ℕ coded_ℕ };

    ghost view = { λ r. row_of r.kept };

    ghost invariant = { λ r. IsKept r.kept };
}

impl Row {
    /// A row without numbers. It takes no memory.
    pub fn new(heap: Heap) -> Row
        ensures { result ≡ map.empty }
    {
        Row {
            kept: Kept::Single(Single::new(heap)),
        }
    }

    /// How many numbers have one.
    pub fn len(&self) -> usize
        ensures { result ≡ map.len self.now }
    {
        match &self.kept {
            Kept::Single(single) => single.len(),
            Kept::One(block) => block.len(),
            Kept::Many(blocks) => blocks.len(),
        }
    }

    /// The number of a number.
    pub fn get(&self, number: u64) -> Option<u64>
        ensures { result ≡ map.get self.now number }
    {
        match &self.kept {
            Kept::Single(single) => single.get(number),
            Kept::One(block) => block.get(number),
            Kept::Many(blocks) => blocks.get(number),
        }
    }

    /// The numbers in their order, each with its number.
    pub fn iter(&self) -> Entries<'_>
        ensures { result ≡ map.entries self.now }
    {
        match &self.kept {
            Kept::Single(single) => Entries::of_single(single.entry()),
            Kept::One(block) => Entries::of_blocks(BlockEntries::new(from_ref(block))),
            Kept::Many(blocks) => Entries::of_blocks(blocks.iter()),
        }
    }

    /// Sets the number of a number.
    pub fn set(&mut self, number: u64, value: u64) -> Result<(), Memory>
        ensures ok { OnOk result (self.new ≡ map.insert self.old number value) }
        ensures err { OnErr result (self.new ≡ self.old) }
    {
        match &mut self.kept {
            Kept::Single(single) => {
                if single.set(number, value) {
                    return Ok(());
                }
                let block = single.with(number, value)?;
                self.kept = Kept::One(block);
                Ok(())
            }
            Kept::One(block) => {
                if block.len() < BLOCK_LIMIT {
                    return block.set(number, value);
                }
                let blocks = Blocks::of_full(block, number, value)?;
                self.kept = Kept::Many(blocks);
                Ok(())
            }
            Kept::Many(blocks) => blocks.set(number, value),
        }
    }

    /// Takes the number of a number away, if it has one. It takes no memory.
    pub fn take(&mut self, number: u64)
        ensures { self.new ≡ map.remove self.old number }
    {
        match &mut self.kept {
            Kept::Single(single) => single.take(number),
            Kept::One(block) => block.take(number),
            Kept::Many(blocks) => blocks.take(number),
        }
    }
}
