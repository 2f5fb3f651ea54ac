//! Pairs of numbers, in as few bytes as the largest of them needs.

ghost use Rattle.std.specs.Prelude.{◌≡◌, ◌++◌, ◌∷◌, ◌<◌, ◌≤◌, [], IfOk, OnErr, OnOk};
ghost use Rattle.std.specs.Prelude.{drop, insert, length, remove, slice_index_or, slice_set, take};
ghost use Rattle.std.specs.List.Sorted.{IsBinarySearchResult, IsSearchInRange};
ghost use Rattle.std.specs.Ordering.{nat_cmp};
ghost use Rattle.doc_index_tables.specs.Pairs.{FitsIn, pairs_in};

use doc_page_parts::failure::Memory;
use doc_page_parts::heap::{Heap, Vec};
use std::marker::Model;

/// Pairs of numbers. A pair takes 4 bytes as long as each number fits in 16 bits, 8 from the first one on that doesn't, and 16 from the
/// first one on that doesn't fit in 32: no number is refused for its size. Contracts see the list.
#[derive(Drop)]
pub struct Pairs {
    kept: Kept,
}

/// Pairs of 4, of 8, or of 16 bytes.
#[derive(Drop)]
enum Kept {
    Small(Vec<(u16, u16)>),
    Narrow(Vec<(u32, u32)>),
    Wide(Vec<(u64, u64)>),
}

impl Model for Pairs {
    ghost use Rattle.std.specs.Prelude.{ℕ, List as Seq};
    ghost use Rattle.doc_index_tables.specs.Pairs.{pairs_in};

    ghost Value = { Seq (ℕ × ℕ) };

    ghost view = { λ p. pairs_in p.kept };
}

impl Pairs {
    /// No pairs. It takes no memory.
    pub fn new(heap: Heap) -> Pairs
        ensures { result ≡ [] }
    {
        Pairs {
            kept: Kept::Small(Vec::new(heap)),
        }
    }

    /// No pairs, with room for a number of small ones.
    pub fn with_capacity(heap: Heap, count: usize) -> Result<Pairs, Memory>
        ensures { IfOk result (λ pairs. pairs ≡ []) }
    {
        Ok(Pairs {
            kept: Kept::Small(Vec::with_capacity(heap, count)?),
        })
    }

    /// The same again.
    pub fn copy(&self, heap: Heap) -> Result<Pairs, Memory>
        ensures { IfOk result (λ pairs. pairs ≡ self.now) }
    {
        let kept = match &self.kept {
            Kept::Small(pairs) => Kept::Small(Vec::from_slice(heap, pairs)?),
            Kept::Narrow(pairs) => Kept::Narrow(Vec::from_slice(heap, pairs)?),
            Kept::Wide(pairs) => Kept::Wide(Vec::from_slice(heap, pairs)?),
        };
        Ok(Pairs { kept })
    }

    /// The pairs before a place, in no more room than they need.
    pub fn before(&self, at: usize) -> Result<Pairs, Memory>
        requires { at ≤ length self.now }
        ensures { IfOk result (λ pairs. pairs ≡ take at self.now) }
    {
        let kept = match &self.kept {
            Kept::Small(pairs) => Kept::Small(Vec::from_slice(self.heap(), &pairs[..at])?),
            Kept::Narrow(pairs) => Kept::Narrow(Vec::from_slice(self.heap(), &pairs[..at])?),
            Kept::Wide(pairs) => Kept::Wide(Vec::from_slice(self.heap(), &pairs[..at])?),
        };
        Ok(Pairs { kept })
    }

    /// The pairs from a place on, in no more room than they need.
    pub fn behind(&self, at: usize) -> Result<Pairs, Memory>
        requires { at ≤ length self.now }
        ensures { IfOk result (λ pairs. pairs ≡ drop at self.now) }
    {
        let kept = match &self.kept {
            Kept::Small(pairs) => Kept::Small(Vec::from_slice(self.heap(), &pairs[at..])?),
            Kept::Narrow(pairs) => Kept::Narrow(Vec::from_slice(self.heap(), &pairs[at..])?),
            Kept::Wide(pairs) => Kept::Wide(Vec::from_slice(self.heap(), &pairs[at..])?),
        };
        Ok(Pairs { kept })
    }

    /// The heap that they stand on.
    pub fn heap(&self) -> Heap {
        match &self.kept {
            Kept::Small(pairs) => *pairs.allocator(),
            Kept::Narrow(pairs) => *pairs.allocator(),
            Kept::Wide(pairs) => *pairs.allocator(),
        }
    }

    /// How many pairs there are.
    pub fn len(&self) -> usize
        ensures { result ≡ length self.now }
    {
        match &self.kept {
            Kept::Small(pairs) => pairs.len(),
            Kept::Narrow(pairs) => pairs.len(),
            Kept::Wide(pairs) => pairs.len(),
        }
    }

    /// The pair at a place.
    pub fn at(&self, at: usize) -> (u64, u64)
        requires { at < length self.now }
        ensures { result ≡ slice_index_or self.now at result }
    {
        match &self.kept {
            Kept::Small(pairs) => {
                let (first, second) = pairs[at];
                (u64::from(first), u64::from(second))
            }
            Kept::Narrow(pairs) => {
                let (first, second) = pairs[at];
                (u64::from(first), u64::from(second))
            }
            Kept::Wide(pairs) => pairs[at],
        }
    }

    /// Where a pair with this first number stands, or, where the first numbers rise, where one would stand. It looks at the last pair,
    /// and halves the list only where the number isn't above that one's.
    pub fn search(&self, first: u64) -> Result<usize, usize>
        ensures within { IsSearchInRange result (length self.now) }
        ensures place { IsBinarySearchResult (λ pair. nat_cmp pair.0 first) self.now result }
    {
        let count = self.len();
        if count == 0 || self.at(count - 1).0 < first {
            return Err(count);
        }
        self.search_by_halves(first)
    }

    /// The same, by halving the list.
    fn search_by_halves(&self, first: u64) -> Result<usize, usize>
        ensures within { IsSearchInRange result (length self.now) }
        ensures place { IsBinarySearchResult (λ pair. nat_cmp pair.0 first) self.now result }
    {
        match &self.kept {
            Kept::Small(pairs) => pairs.binary_search_by_key(&first, |pair| u64::from(pair.0)),
            Kept::Narrow(pairs) => pairs.binary_search_by_key(&first, |pair| u64::from(pair.0)),
            Kept::Wide(pairs) => pairs.binary_search_by_key(&first, |pair| pair.0),
        }
    }

    /// Sets the pair at a place. It takes memory only where the pairs get wider.
    pub fn set(&mut self, at: usize, pair: (u64, u64)) -> Result<(), Memory>
        requires { at < length self.old }
        ensures ok { OnOk result (self.new ≡ slice_set self.old at pair) }
        ensures err { OnErr result (self.new ≡ self.old) }
    {
        widen_for(&mut self.kept, pair)?;
        match &mut self.kept {
            Kept::Small(pairs) => pairs[at] = (pair.0 as u16, pair.1 as u16),
            Kept::Narrow(pairs) => pairs[at] = (pair.0 as u32, pair.1 as u32),
            Kept::Wide(pairs) => pairs[at] = pair,
        }
        Ok(())
    }

    /// Inserts a pair at a place. The first pair takes exactly its room.
    pub fn insert(&mut self, at: usize, pair: (u64, u64)) -> Result<(), Memory>
        requires { at ≤ length self.old }
        ensures ok { OnOk result (self.new ≡ insert self.old at pair) }
        ensures err { OnErr result (self.new ≡ self.old) }
    {
        widen_for(&mut self.kept, pair)?;
        match &mut self.kept {
            Kept::Small(pairs) => insert_in(pairs, at, (pair.0 as u16, pair.1 as u16)),
            Kept::Narrow(pairs) => insert_in(pairs, at, (pair.0 as u32, pair.1 as u32)),
            Kept::Wide(pairs) => insert_in(pairs, at, pair),
        }
    }

    /// Adds a pair at the end.
    pub fn push(&mut self, pair: (u64, u64)) -> Result<(), Memory>
        ensures ok { OnOk result (self.new ≡ self.old ++ pair ∷ []) }
        ensures err { OnErr result (self.new ≡ self.old) }
    {
        widen_for(&mut self.kept, pair)?;
        match &mut self.kept {
            Kept::Small(pairs) => pairs.push((pair.0 as u16, pair.1 as u16))?,
            Kept::Narrow(pairs) => pairs.push((pair.0 as u32, pair.1 as u32))?,
            Kept::Wide(pairs) => pairs.push(pair)?,
        }
        Ok(())
    }

    /// Removes the pair at a place. It takes no memory.
    pub fn remove(&mut self, at: usize)
        requires { at < length self.old }
        ensures { self.new ≡ remove self.old at }
    {
        match &mut self.kept {
            Kept::Small(pairs) => {
                pairs.remove(at);
            }
            Kept::Narrow(pairs) => {
                pairs.remove(at);
            }
            Kept::Wide(pairs) => {
                pairs.remove(at);
            }
        }
    }
}

/// Makes the form wide enough for a pair, and changes no pair.
fn widen_for(kept: &mut Kept, pair: (u64, u64)) -> Result<(), Memory>
    ensures room { OnOk result (FitsIn pair kept.new) }
    ensures same { pairs_in kept.new ≡ pairs_in kept.old }
{
    let largest = pair.0.max(pair.1);
    match kept {
        Kept::Small(pairs) => {
            if largest > u64::from(u32::MAX) {
                let wide = wide_of_small(pairs)?;
                *kept = Kept::Wide(wide);
            } else if largest > u64::from(u16::MAX) {
                let narrow = narrow_of_small(pairs)?;
                *kept = Kept::Narrow(narrow);
            }
        }
        Kept::Narrow(pairs) => {
            if largest > u64::from(u32::MAX) {
                let wide = wide_of_narrow(pairs)?;
                *kept = Kept::Wide(wide);
            }
        }
        Kept::Wide(_) => {}
    }
    Ok(())
}

/// The same pairs in 32 bits each.
fn narrow_of_small(pairs: &Vec<(u16, u16)>) -> Result<Vec<(u32, u32)>, Memory>
    ensures { IfOk result (λ narrow. narrow.items ≡ pairs.now.items) }
{
    let mut narrow = Vec::with_capacity(*pairs.allocator(), pairs.len())?;
    for (first, second) in pairs.iter() {
        narrow.push((u32::from(*first), u32::from(*second)))?;
    }
    Ok(narrow)
}

/// The same pairs in 64 bits each.
fn wide_of_small(pairs: &Vec<(u16, u16)>) -> Result<Vec<(u64, u64)>, Memory>
    ensures { IfOk result (λ wide. wide.items ≡ pairs.now.items) }
{
    let mut wide = Vec::with_capacity(*pairs.allocator(), pairs.len())?;
    for (first, second) in pairs.iter() {
        wide.push((u64::from(*first), u64::from(*second)))?;
    }
    Ok(wide)
}

/// The same pairs in 64 bits each.
fn wide_of_narrow(pairs: &Vec<(u32, u32)>) -> Result<Vec<(u64, u64)>, Memory>
    ensures { IfOk result (λ wide. wide.items ≡ pairs.now.items) }
{
    let mut wide = Vec::with_capacity(*pairs.allocator(), pairs.len())?;
    for (first, second) in pairs.iter() {
        wide.push((u64::from(*first), u64::from(*second)))?;
    }
    Ok(wide)
}

/// Inserts a pair, the first one in exactly its room.
fn insert_in<T: Copy>(pairs: &mut Vec<T>, at: usize, pair: T) -> Result<(), Memory>
    requires { at ≤ length pairs.old.items }
    ensures ok { OnOk result (pairs.new.items ≡ insert pairs.old.items at pair) }
    ensures err { OnErr result (pairs.new.items ≡ pairs.old.items) }
{
    if pairs.is_empty() {
        pairs.reserve_exact(1)?;
    }
    Ok(pairs.insert(at, pair)?)
}
