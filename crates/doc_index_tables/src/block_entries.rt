//! The entries of blocks, one after another.

ghost use Rattle.std.specs.Prelude.{◌≡◌};
ghost use Rattle.std.specs.Iterator.{YieldsFirst, item_count};
ghost use Rattle.doc_index_tables.specs.Blocks.{IsStart, joined};

use crate::block::Block;
use std::marker::Model;

/// The entries of blocks that are left, in their order. Contracts see the list of them.
#[derive(Drop)]
pub struct BlockEntries<'a> {
    blocks: &'a [Block],
    next: usize,
}

impl<'a> Model for BlockEntries<'a> {
    ghost use Rattle.std.specs.Prelude.{ℕ, List as Seq, drop};
    ghost use Rattle.doc_index_tables.specs.Blocks.{IsStart, joined};

    ghost Value = { Seq (ℕ × ℕ) };

    ghost view = { λ e. drop e.next (joined e.blocks.now) };

    ghost invariant = { λ e. IsStart e.next e.blocks.now };
}

impl<'a> BlockEntries<'a> {
    /// All entries of blocks.
    pub fn new(blocks: &'a [Block]) -> Self
        requires { IsStart 0 blocks.now }
        ensures { result ≡ joined blocks.now }
    {
        BlockEntries { blocks, next: 0 }
    }
}

impl<'a> Iterator for BlockEntries<'a> {
    type Item = (u64, u64);

    ghost next_gives = { YieldsFirst (λ s. s) };

    ghost remaining = { item_count (λ s. s) };

    fn next(&mut self) -> Option<(u64, u64)> {
        let (block, others) = self.blocks.split_first()?;
        if self.next < block.len() {
            let entry = block.at(self.next);
            self.next += 1;
            return Some(entry);
        }
        let (block, _) = others.split_first()?;
        let entry = block.at(0);
        *self = BlockEntries {
            blocks: others,
            next: 1,
        };
        Some(entry)
    }
}
