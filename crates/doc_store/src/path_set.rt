//! Sets of paths.

ghost use Rattle.std.specs.Prelude.{◌≡◌, ◌∷◌, IfOk, OnOk, OnErr};
ghost use Rattle.std.specs.BTreeMap.{IsOrdered};
ghost use Rattle.std.specs.Cmp.Lexicographic.{slice_cmp};
ghost use Rattle.std.specs.FinMap as map;
ghost use Rattle.std.specs.Map.{keys_of};
ghost use Rattle.std.specs.Ordering.{nat_cmp};
ghost use Rattle.doc_store.specs.AliasSteps.{copies_for};
ghost use Rattle.doc_store_readers.specs.Groups.{texts_of};

use doc_page_parts::failure::Memory;
use doc_page_parts::heap::{BTreeMap, Heap, Vec};
use doc_page_parts::path::Path;
use std::collections::btree_map::Keys;
use std::marker::Model;

/// A set of paths: the keys of a map. Contracts see the set as a map, too.
#[derive(Drop)]
pub struct PathSet {
    paths: BTreeMap<Path, ()>,
}

impl Model for PathSet {
    ghost use Rattle.std.specs.Coded.{coded_ℕ, coded_list};
    ghost use Rattle.std.specs.FinMap as map;
    ghost use Rattle.std.specs.FinSet as set;
    ghost use Rattle.doc_store.specs.AliasSteps.{TextSet};

    ghost Value = { TextSet };

    ghost coded = { set.code (coded_list coded_ℕ) };

    ghost view = { λ s. map.from_entries s.paths.entries };
}

impl PathSet {
    pub fn new(heap: Heap) -> PathSet
        ensures { result ≡ map.empty }
    {
        PathSet {
            paths: BTreeMap::new(heap),
        }
    }

    /// Adds a copy of a path, unless it stands.
    pub fn add(&mut self, heap: Heap, path: &Path) -> Result<(), Memory>
        ensures ok { OnOk result (self.new ≡ map.insert self.old path.now tt) }
        ensures err { OnErr result (self.new ≡ self.old) }
    {
        self.paths.insert(path.copy(heap)?, ())?;
        Ok(())
    }

    /// Takes a path out, if it stands. It takes no memory.
    pub fn remove(&mut self, path: &Path)
        ensures { self.new ≡ map.remove self.old path.now }
    {
        self.paths.remove(path);
    }

    /// The paths in their order.
    pub fn iter(&self) -> Keys<'_, Path, ()>
        ensures { result ≡ map.keys self.now }
    {
        self.paths.keys()
    }

    /// The paths in their order, after a first one.
    pub fn after<'a>(&'a self, heap: Heap, first: &'a Path) -> Result<Vec<&'a Path>, Memory>
        ensures { IfOk result (λ names. texts_of names.items ≡ first.now ∷ map.keys self.now) }
    {
        after(heap, first, &self.paths)
    }

    /// As many copies of another path as there are paths.
    pub fn copies_of(&self, heap: Heap, other: &Path) -> Result<Vec<Path>, Memory>
        ensures { IfOk result (λ copies. copies.items ≡ copies_for other.now (map.keys self.now)) }
    {
        copies_of(heap, other, &self.paths)
    }
}

/// A path, then the keys of a map.
fn after<'a>(
    heap: Heap,
    first: &'a Path,
    paths: &'a BTreeMap<Path, ()>,
) -> Result<Vec<&'a Path>, Memory>
    ensures names { IfOk result
        (λ names. texts_of names.items ≡ first.now ∷ keys_of paths.now.entries) }
    ensures ordered { OnOk result (IsOrdered (slice_cmp nat_cmp) paths.now) }
{
    let mut names = Vec::with_capacity(heap, paths.len() + 1)?;
    names.push(first)?;
    for path in paths.keys() {
        names.push(path)?;
    }
    Ok(names)
}

/// As many copies of a path as a map has keys.
fn copies_of(heap: Heap, other: &Path, paths: &BTreeMap<Path, ()>) -> Result<Vec<Path>, Memory>
    ensures copies { IfOk result
        (λ copies. copies.items ≡ copies_for other.now (keys_of paths.now.entries)) }
    ensures ordered { OnOk result (IsOrdered (slice_cmp nat_cmp) paths.now) }
{
    let mut copies = Vec::with_capacity(heap, paths.len())?;
    for _path in paths.keys() {
        copies.push(other.copy(heap)?)?;
    }
    Ok(copies)
}
