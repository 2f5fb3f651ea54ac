//! Where the aliases of a site lead.

ghost use Rattle.std.specs.Prelude.{◌≡◌, ◌<◌, ◌^◌, ℕ, List as Seq, OnOk, OnErr, option_copied};
ghost use Rattle.std.specs.FinMap as map;
ghost use Rattle.doc_store.specs.AliasSteps.{copies_for, with_all, with_value, without_all};

use crate::path_set::PathSet;
use doc_page_parts::failure::Memory;
use doc_page_parts::heap::{BTreeMap, Heap, Vec};
use doc_page_parts::path::Path;
use std::marker::Model;

/// The aliases of a site, each with the path of the page that it leads to, which is its goal. Contracts
/// see the map.
#[derive(Drop)]
pub struct Goals {
    entries: BTreeMap<Path, Path>,
}

impl Model for Goals {
    ghost use Rattle.std.specs.Prelude.{ℕ, List as Seq};
    ghost use Rattle.std.specs.Coded.{coded_ℕ, coded_list};
    ghost use Rattle.std.specs.FinMap as map;
    ghost use Rattle.doc_store_readers.specs.Maps.{TextMap};

    ghost Value = { TextMap (Seq ℕ) };

    ghost coded = { map.code (coded_list coded_ℕ) (coded_list coded_ℕ) };

    ghost view = { λ g. map.from_entries g.entries.entries };
}

impl Goals {
    pub fn new(heap: Heap) -> Goals
        ensures { result ≡ map.empty }
    {
        Goals {
            entries: BTreeMap::new(heap),
        }
    }

    pub fn get(&self, alias: &Path) -> Option<&Path>
        ensures { option_copied result ≡ map.get self.now alias.now }
    {
        self.entries.get(alias)
    }

    pub fn contains(&self, alias: &Path) -> bool
        ensures { result ≡ map.contains_key self.now alias.now }
    {
        self.entries.contains_key(alias)
    }

    pub fn len(&self) -> usize
        ensures len { result ≡ map.len self.now }
        ensures small { result < 2 ^ 63 }
    {
        self.entries.len()
    }

    /// Adds an alias, or sets where it leads.
    pub fn insert(&mut self, alias: Path, goal: Path) -> Result<(), Memory>
        ensures ok { OnOk result (self.new ≡ map.insert self.old alias goal) }
        ensures err { OnErr result (self.new ≡ self.old) }
    {
        self.entries.insert(alias, goal)?;
        Ok(())
    }

    /// Takes an alias out, if it is one. It takes no memory.
    pub fn take(&mut self, alias: &Path) -> Option<Path>
        ensures goal { result ≡ map.get self.old alias.now }
        ensures rest { self.new ≡ map.remove self.old alias.now }
    {
        self.entries.remove(alias)
    }

    /// Sets where an alias leads, if it is one. It takes no memory.
    fn set(&mut self, alias: &Path, goal: Path)
        ensures { self.new ≡ with_value self.old alias.now goal }
    {
        let Some(old) = self.entries.get_mut(alias) else {
            return;
        };
        *old = goal;
    }

    /// Has each of these aliases lead to the same goal, of which as many copies are given. It takes no
    /// memory.
    pub fn set_all(&mut self, aliases: &PathSet, copies: &mut Vec<Path>)
        ensures { (to : Seq ℕ) → copies.old.items ≡ copies_for to (map.keys aliases.now)
            → self.new ≡ with_all self.old (map.keys aliases.now) to }
    {
        for alias in aliases.iter() {
            let Some(goal) = copies.pop() else {
                return;
            };
            self.set(alias, goal);
        }
    }

    /// Takes these aliases out. It takes no memory.
    pub fn remove_all(&mut self, aliases: &PathSet)
        ensures { self.new ≡ without_all self.old (map.keys aliases.now) }
    {
        for alias in aliases.iter() {
            self.take(alias);
        }
    }
}
