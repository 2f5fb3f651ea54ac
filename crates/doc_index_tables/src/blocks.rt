//! Many numbers by number.

ghost use Rattle.std.specs.Prelude.{◌≡◌, ◌∷◌, ◌<◌, ◌≤◌, ◌-◌, [], false, true, IfOk, OnOk, OnErr, length};
ghost use Rattle.std.specs.FinMap as map;
ghost use Rattle.std.specs.FinMap.{put};
ghost use Rattle.std.specs.List.{HoldsAt};
ghost use Rattle.std.specs.Ordering.{nat_cmp};
ghost use Rattle.doc_index_tables.specs.Blocks.{AreBlocks, IsPlace, begins_by, block_limit, joined, without};

use crate::block::Block;
use crate::block_entries::BlockEntries;
use doc_page_parts::failure::Memory;
use doc_page_parts::heap::Vec;
use std::marker::Model;

/// How many numbers a block has at most.
pub const BLOCK_LIMIT: usize = 512;

/// Many numbers by number, in blocks: an insertion moves what stands behind it in its block, and a full block is halved. Contracts see
/// the map.
#[derive(Drop)]
pub struct Blocks {
    blocks: Vec<Block>,
    count: usize,
}

impl Model for Blocks {
    ghost use Rattle.std.specs.Prelude.{◌≡◌, ℕ, length};
    ghost use Rattle.std.specs.Coded.{coded_ℕ};
    ghost use Rattle.std.specs.FinMap as map;
    ghost use Rattle.doc_index_tables.specs.Blocks.{AreBlocks, joined};
    ghost use Rattle.doc_index_tables.specs.Maps.{NumberMap};

    ghost Value = { NumberMap ℕ };

    ghost coded = { map.code coded_ℕ coded_ℕ };

    ghost view = { λ b. map.from_sorted (joined b.blocks.items) };

    ghost invariant = { λ b. AreBlocks b.blocks.items × (b.count ≡ length (joined b.blocks.items)) };
}

impl Blocks {
    /// The numbers of a block that is full, and one more.
    pub fn of_full(block: &Block, number: u64, value: u64) -> Result<Blocks, Memory>
        requires { map.len block.now ≡ block_limit }
        ensures { IfOk result (λ blocks. blocks ≡ map.insert block.now number value) }
    {
        let (lower, upper) = block.halves_with(number, value)?;
        let count = lower.len() + upper.len();
        let mut blocks = Vec::with_capacity(block.heap(), 2)?;
        blocks.push(lower)?;
        blocks.push(upper)?;
        Ok(Blocks { blocks, count })
    }

    /// How many numbers have one.
    pub fn len(&self) -> usize
        ensures { result ≡ map.len self.now }
    {
        self.count
    }

    /// The number of a number.
    pub fn get(&self, number: u64) -> Option<u64>
        ensures { result ≡ map.get self.now number }
    {
        self.blocks.get(place_of(&self.blocks, number))?.get(number)
    }

    /// The numbers in their order, each with its number.
    pub fn iter(&self) -> BlockEntries<'_>
        ensures { result ≡ map.entries self.now }
    {
        BlockEntries::new(&self.blocks)
    }

    /// Sets the number of a number.
    pub fn set(&mut self, number: u64, value: u64) -> Result<(), Memory>
        ensures ok { OnOk result (self.new ≡ map.insert self.old number value) }
        ensures err { OnErr result (self.new ≡ self.old) }
    {
        if self.get(number).is_some() {
            return set_in(&mut self.blocks, number, value);
        }
        let count = self.count.checked_add(1).ok_or(Memory)?;
        set_in(&mut self.blocks, number, value)?;
        self.count = count;
        Ok(())
    }

    /// Takes the number of a number away, if it has one. It takes no memory.
    pub fn take(&mut self, number: u64)
        ensures { self.new ≡ map.remove self.old number }
    {
        if self.get(number).is_none() {
            return;
        }
        take_in(&mut self.blocks, number);
        self.count -= 1;
    }
}

/// The place of the block that has a number if any has it: the last that begins by it, or the first.
fn place_of(blocks: &[Block], number: u64) -> usize
    requires { AreBlocks blocks.now }
    ensures { IsPlace number blocks.now result }
{
    begun_by(blocks, number).saturating_sub(1)
}

/// How many blocks begin by a number, by halving them.
fn begun_by(blocks: &[Block], number: u64) -> usize
    ensures within { result ≤ length blocks.now }
    ensures before { 0 < result → HoldsAt (λ block. begins_by number (map.entries block) ≡ true) blocks.now (result - 1) }
    ensures behind { result < length blocks.now → HoldsAt (λ block. begins_by number (map.entries block) ≡ false) blocks.now result }
{
    let mut low = 0;
    let mut high = blocks.len();
    'halves: while low < high {
        let middle = low + (high - low) / 2;
        if blocks[middle].begins_by(number) {
            low = middle + 1;
        } else {
            high = middle;
        }
    }
    low
}

/// Sets the number of a number in its block. Where the block is full, its halves take its place.
fn set_in(blocks: &mut Vec<Block>, number: u64, value: u64) -> Result<(), Memory>
    requires { AreBlocks blocks.old.items }
    ensures blocks { OnOk result (AreBlocks blocks.new.items) }
    ensures ok { OnOk result (joined blocks.new.items ≡ put nat_cmp number value (joined blocks.old.items)) }
    ensures err { OnErr result (blocks.new.items ≡ blocks.old.items) }
{
    let at = place_of(blocks, number);
    if at >= blocks.len() {
        return set_first(blocks, number, value);
    }
    if blocks[at].len() >= BLOCK_LIMIT {
        return set_in_full(blocks, at, number, value);
    }
    blocks[at].set(number, value)
}

/// Sets a number where there is no block.
fn set_first(blocks: &mut Vec<Block>, number: u64, value: u64) -> Result<(), Memory>
    requires { blocks.old.items ≡ [] }
    ensures blocks { OnOk result (AreBlocks blocks.new.items) }
    ensures ok { OnOk result (joined blocks.new.items ≡ (number, value) ∷ []) }
    ensures err { OnErr result (blocks.new.items ≡ blocks.old.items) }
{
    let mut block = Block::new(*blocks.allocator());
    block.set(number, value)?;
    Ok(blocks.push(block)?)
}

/// Sets a number in a full block: its halves take its place.
fn set_in_full(blocks: &mut Vec<Block>, at: usize, number: u64, value: u64) -> Result<(), Memory>
    requires place { AreBlocks blocks.old.items × IsPlace number blocks.old.items at × (at < length blocks.old.items) }
    requires full { HoldsAt (λ block. map.len block ≡ block_limit) blocks.old.items at }
    ensures blocks { OnOk result (AreBlocks blocks.new.items) }
    ensures ok { OnOk result (joined blocks.new.items ≡ put nat_cmp number value (joined blocks.old.items)) }
    ensures err { OnErr result (blocks.new.items ≡ blocks.old.items) }
{
    let (lower, upper) = blocks[at].halves_with(number, value)?;
    blocks.insert(at + 1, upper)?;
    blocks[at] = lower;
    Ok(())
}

/// Takes a number out of its block, and the block once it is empty.
fn take_in(blocks: &mut Vec<Block>, number: u64)
    requires { AreBlocks blocks.old.items }
    ensures blocks { AreBlocks blocks.new.items }
    ensures rest { joined blocks.new.items ≡ without number (joined blocks.old.items) }
{
    let at = place_of(blocks, number);
    if at >= blocks.len() {
        return;
    }
    blocks[at].take(number);
    if blocks[at].len() != 0 {
        return;
    }
    blocks.remove(at);
}
