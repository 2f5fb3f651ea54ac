//! The entries of a row, one after another.

ghost use Rattle.std.specs.Prelude.{◌≡◌};
ghost use Rattle.std.specs.Iterator.{YieldsFirst, item_count};
ghost use Rattle.std.specs.Option.{option_to_list};

use crate::block_entries::BlockEntries;
use std::marker::Model;

/// The entries of a row that are left, in their order. Contracts see the list of them.
#[derive(Drop)]
pub struct Entries<'a> {
    left: Left<'a>,
}

#[derive(Drop)]
enum Left<'a> {
    Single(Option<(u64, u64)>),
    Blocks(BlockEntries<'a>),
}

impl<'a> Model for Entries<'a> {
    ghost use Rattle.std.specs.Prelude.{ℕ, List as Seq};
    ghost use Rattle.doc_index_tables.specs.Rows.{entries_left};

    ghost Value = { Seq (ℕ × ℕ) };

    ghost view = { λ e. entries_left e.left };
}

impl<'a> Entries<'a> {
    /// One entry at most.
    pub fn of_single(entry: Option<(u64, u64)>) -> Self
        ensures { result ≡ option_to_list entry }
    {
        Entries {
            left: Left::Single(entry),
        }
    }

    /// The entries of blocks.
    pub fn of_blocks(entries: BlockEntries<'a>) -> Self
        ensures { result ≡ entries.entry }
    {
        Entries {
            left: Left::Blocks(entries),
        }
    }
}

impl<'a> Iterator for Entries<'a> {
    type Item = (u64, u64);

    ghost next_gives = { YieldsFirst (λ s. s) };

    ghost remaining = { item_count (λ s. s) };

    fn next(&mut self) -> Option<(u64, u64)> {
        match &mut self.left {
            Left::Single(entry) => entry.take(),
            Left::Blocks(entries) => entries.next(),
        }
    }
}
