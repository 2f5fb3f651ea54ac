//! The aliases of a site by where they lead.

ghost use Rattle.std.specs.Prelude.{◌≡◌, IfOk, OnOk, OnErr, option_copied};
ghost use Rattle.std.specs.FinMap as map;
ghost use Rattle.doc_store.specs.AliasSteps.{aliases_at, copies_for, with_alias, with_value, without_alias};

use crate::path_set::PathSet;
use doc_page_parts::failure::Memory;
use doc_page_parts::heap::{BTreeMap, Heap, Vec};
use doc_page_parts::path::Path;
use std::marker::Model;

/// For the path of a page the aliases that lead there. A path has no set of aliases, or one that may be
/// empty. Contracts see the map.
#[derive(Drop)]
pub struct ByGoal {
    entries: BTreeMap<Path, PathSet>,
}

impl Model for ByGoal {
    ghost use Rattle.std.specs.Coded.{coded_ℕ, coded_list};
    ghost use Rattle.std.specs.FinMap as map;
    ghost use Rattle.std.specs.FinSet as set;
    ghost use Rattle.doc_store.specs.AliasSteps.{TextSet};
    ghost use Rattle.doc_store_readers.specs.Maps.{TextMap};

    ghost Value = { TextMap TextSet };

    ghost coded = { map.code (coded_list coded_ℕ) (set.code (coded_list coded_ℕ)) };

    ghost view = { λ b. map.from_entries b.entries.entries };
}

impl ByGoal {
    pub fn new(heap: Heap) -> ByGoal
        ensures { result ≡ map.empty }
    {
        ByGoal {
            entries: BTreeMap::new(heap),
        }
    }

    pub fn get(&self, goal: &Path) -> Option<&PathSet>
        ensures { option_copied result ≡ map.get self.now goal.now }
    {
        self.entries.get(goal)
    }

    /// Copies of another path, as many as the aliases of a path.
    pub fn copies_for(&self, heap: Heap, goal: &Path, other: &Path) -> Result<Vec<Path>, Memory>
        ensures { IfOk result
            (λ copies. copies.items
            ≡ copies_for other.now (map.keys (aliases_at self.now goal.now))) }
    {
        match self.get(goal) {
            Some(aliases) => aliases.copies_of(heap, other),
            None => Ok(Vec::new(heap)),
        }
    }

    /// Sets the aliases of a path.
    pub fn insert(&mut self, goal: Path, aliases: PathSet) -> Result<(), Memory>
        ensures ok { OnOk result (self.new ≡ map.insert self.old goal aliases) }
        ensures err { OnErr result (self.new ≡ self.old) }
    {
        self.entries.insert(goal, aliases)?;
        Ok(())
    }

    /// Sets the aliases of a path that has some. It takes no memory.
    pub fn replace(&mut self, goal: &Path, aliases: PathSet)
        ensures { self.new ≡ with_value self.old goal.now aliases }
    {
        let Some(old) = self.entries.get_mut(goal) else {
            return;
        };
        *old = aliases;
    }

    /// Takes the aliases of a path out. It takes no memory.
    pub fn take(&mut self, goal: &Path) -> Option<PathSet>
        ensures aliases { result ≡ map.get self.old goal.now }
        ensures rest { self.new ≡ map.remove self.old goal.now }
    {
        self.entries.remove(goal)
    }

    /// Adds an alias to those of a path.
    pub fn add(&mut self, heap: Heap, goal: &Path, alias: &Path) -> Result<(), Memory>
        ensures ok { OnOk result (self.new ≡ with_alias self.old goal.now alias.now) }
        ensures err { OnErr result (self.new ≡ self.old) }
    {
        if let Some(aliases) = self.entries.get_mut(goal) {
            return aliases.add(heap, alias);
        }
        let mut aliases = PathSet::new(heap);
        aliases.add(heap, alias)?;
        self.insert(goal.copy(heap)?, aliases)
    }

    /// Takes an alias from those of a path. It takes no memory.
    pub fn remove(&mut self, goal: &Path, alias: &Path)
        ensures { self.new ≡ without_alias self.old goal.now alias.now }
    {
        let Some(aliases) = self.entries.get_mut(goal) else {
            return;
        };
        aliases.remove(alias);
    }
}
