//! The numbers of the sets of groups that pages have, by the pages' paths.

ghost use Rattle.std.specs.Prelude.{◌≡◌, ◌≤◌, false, IsTrue, IfOk, OnOk, OnErr, insert, length, map as mapped, slice_index_or};
ghost use Rattle.std.specs.FinMap as map;
ghost use Rattle.std.specs.List.Sorted.{IsStrictlySortedBy};
ghost use Rattle.doc_store.specs.Numbers.{IsPlace, text_cmp};
ghost use Rattle.doc_store.specs.Store.{with_key};

use doc_page_parts::failure::Memory;
use doc_page_parts::heap::{Heap, Vec};
use doc_page_parts::path::Path;
use std::marker::Model;

/// Of each page, under its path, the number of the set of its groups. The paths stand in a row of their own, in order, and the numbers
/// in another, so that a walk over all reads these alone. Contracts see the map.
#[derive(Drop)]
pub struct Numbers {
    paths: Vec<Path>,
    numbers: Vec<usize>,
}

impl Model for Numbers {
    ghost use Rattle.std.specs.Prelude.{ℕ};
    ghost use Rattle.std.specs.Coded.{coded_ℕ, coded_list};
    ghost use Rattle.std.specs.FinMap as map;
    ghost use Rattle.doc_store.specs.Numbers.{AreRows, map_of};
    ghost use Rattle.doc_store_readers.specs.Maps.{TextMap};

    ghost Value = { TextMap ℕ };

    ghost coded = { map.code (coded_list coded_ℕ) coded_ℕ };

    ghost view = { λ n. map_of n.paths.items n.numbers.items };

    ghost invariant = { λ n. AreRows n.paths.items n.numbers.items };
}

impl Numbers {
    pub fn new(heap: Heap) -> Numbers
        ensures { result ≡ map.empty }
    {
        Numbers {
            paths: Vec::new(heap),
            numbers: Vec::new(heap),
        }
    }

    /// Sets the number of a path.
    pub fn insert(&mut self, heap: Heap, path: &Path, number: usize) -> Result<(), Memory>
        ensures ok { OnOk result (self.new ≡ map.insert self.old path.now number) }
        ensures err { OnErr result (self.new ≡ self.old) }
    {
        match place_of(&self.paths, path) {
            Ok(at) => self.numbers[at] = number,
            Err(at) => insert_in(
                &mut self.paths,
                &mut self.numbers,
                at,
                path.copy(heap)?,
                number,
            )?,
        }
        Ok(())
    }

    /// Sets the number of a path that has one. It takes no memory.
    pub fn replace(&mut self, path: &Path, number: usize)
        requires { IsTrue (map.contains_key self.old path.now) }
        ensures { self.new ≡ map.insert self.old path.now number }
    {
        if let Ok(at) = place_of(&self.paths, path) {
            self.numbers[at] = number;
        }
    }

    /// Takes the number of a path out. It takes no memory.
    pub fn take(&mut self, path: &Path) -> Option<usize>
        ensures number { result ≡ map.get self.old path.now }
        ensures rest { self.new ≡ map.remove self.old path.now }
    {
        let Ok(at) = place_of(&self.paths, path) else {
            return None;
        };
        self.paths.remove(at);
        Some(self.numbers.remove(at))
    }

    /// Takes the number of one path to another, which has one too. It takes no memory.
    pub fn rename(&mut self, from: &Path, to: &Path)
        requires { IsTrue (map.contains_key (map.remove self.old from.now) to.now) }
        ensures { self.new ≡ with_key self.old from.now to.now }
    {
        if let Some(number) = self.take(from) {
            self.replace(to, number);
        }
    }

    /// What these flags say of the number of each path, in the order of the paths.
    pub fn flags(&self, heap: Heap, seen: &[bool]) -> Result<Vec<bool>, Memory>
        ensures { IfOk result (λ flags. flags.items
            ≡ mapped (λ number. slice_index_or seen.now number false) (map.values self.now)) }
    {
        let mut flags = Vec::with_capacity(heap, self.numbers.len())?;
        for number in self.numbers.iter() {
            flags.push(flag_at(seen, *number))?;
        }
        Ok(flags)
    }
}

/// Where a path stands among others in their order, or else where it would. The last one is looked at first, since pages mostly come in
/// order; then it halves the row.
fn place_of(paths: &[Path], path: &Path) -> Result<usize, usize>
    requires { IsStrictlySortedBy text_cmp paths.now }
    ensures { IsPlace path.now paths.now result }
{
    if let Some(last) = paths.last() {
        if last < path {
            return Err(paths.len());
        }
    }
    paths.binary_search(path)
}

/// Inserts a path and its number at a place, each in its row. Both have their room before either changes.
fn insert_in(
    paths: &mut Vec<Path>,
    numbers: &mut Vec<usize>,
    at: usize,
    path: Path,
    number: usize,
) -> Result<(), Memory>
    requires place { at ≤ length paths.old.items }
    requires rows { length numbers.old.items ≡ length paths.old.items }
    ensures paths { OnOk result (paths.new.items ≡ insert paths.old.items at path) }
    ensures numbers { OnOk result (numbers.new.items ≡ insert numbers.old.items at number) }
    ensures same_paths { OnErr result (paths.new.items ≡ paths.old.items) }
    ensures same_numbers { OnErr result (numbers.new.items ≡ numbers.old.items) }
{
    numbers.reserve(1)?;
    paths.insert(at, path)?;
    numbers.insert(at, number)?;
    Ok(())
}

/// The flag of this number.
fn flag_at(flags: &[bool], number: usize) -> bool
    ensures { result ≡ slice_index_or flags.now number false }
{
    match flags.get(number) {
        Some(flag) => *flag,
        None => false,
    }
}
