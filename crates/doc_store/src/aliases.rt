//! The aliases of a site.

ghost use Rattle.std.specs.Prelude.{◌≡◌, ◌≢◌, ◌+◌, [], ◌∷◌, ℕ, List as Seq, Some, None, IfOk, OnOk, OnErr, option_copied};
ghost use Rattle.std.specs.FinMap as map;
ghost use Rattle.doc_store_readers.specs.Groups.{texts_of};
ghost use Rattle.doc_store_readers.specs.Maps.{map_values};
ghost use Rattle.doc_store.specs.Names.{aliases_of};
ghost use Rattle.doc_store.specs.Store.{aliases_after, goal_after, without_goal};

use crate::by_goal::ByGoal;
use crate::goals::Goals;
use crate::path_set::PathSet;
use doc_page_parts::failure::Memory;
use doc_page_parts::heap::{Heap, Vec};
use doc_page_parts::path::Path;
use std::marker::Model;

/// The aliases of a site, each with the path of the page that it leads to; and back, for each page its
/// aliases, so that a call on a page costs what it touches. Contracts see the first map.
#[derive(Drop)]
pub struct Aliases {
    goals: Goals,
    by_goal: ByGoal,
}

impl Model for Aliases {
    ghost use Rattle.std.specs.Prelude.{ℕ, List as Seq};
    ghost use Rattle.std.specs.Coded.{coded_ℕ, coded_list};
    ghost use Rattle.std.specs.FinMap as map;
    ghost use Rattle.doc_store.specs.AliasSteps.{AreSets};
    ghost use Rattle.doc_store_readers.specs.Maps.{TextMap};

    ghost Value = { TextMap (Seq ℕ) };

    ghost coded = { map.code (coded_list coded_ℕ) (coded_list coded_ℕ) };

    ghost view = { λ a. a.goals };

    ghost invariant = { λ a. AreSets a.goals a.by_goal };
}

impl Aliases {
    pub fn new(heap: Heap) -> Aliases
        ensures { result ≡ map.empty }
    {
        Aliases {
            goals: Goals::new(heap),
            by_goal: ByGoal::new(heap),
        }
    }

    pub fn get(&self, alias: &Path) -> Option<&Path>
        ensures { option_copied result ≡ map.get self.now alias.now }
    {
        self.goals.get(alias)
    }

    pub fn contains(&self, alias: &Path) -> bool
        ensures { result ≡ map.contains_key self.now alias.now }
    {
        self.goals.contains(alias)
    }

    /// How many aliases there are with one more, once a path is none of them.
    pub fn len_after_move(&self, to: &Path) -> usize
        ensures { result ≡ map.len (map.remove self.now to.now) + 1 }
    {
        if self.goals.contains(to) {
            return self.goals.len();
        }
        self.goals.len() + 1
    }

    /// The names of a page whose path stands in the site: its path, then the aliases that lead to it. It
    /// costs what it answers.
    pub fn names<'a>(&'a self, heap: Heap, path: &'a Path) -> Result<Vec<&'a Path>, Memory>
        ensures { IfOk result
            (λ names. texts_of names.items ≡ path.now ∷ aliases_of self.now path.now) }
    {
        if let Some(aliases) = self.by_goal.get(path) {
            return aliases.after(heap, path);
        }
        alone(heap, path)
    }

    /// Adds an alias.
    fn add(&mut self, heap: Heap, alias: &Path, goal: &Path) -> Result<(), Memory>
        requires { map.get self.old alias.now ≡ None }
        ensures ok { OnOk result (self.new ≡ map.insert self.old alias.now goal.now) }
        ensures err { OnErr result (self.new ≡ self.old) }
    {
        self.goals.insert(alias.copy(heap)?, goal.copy(heap)?)?;
        if let Err(e) = self.by_goal.add(heap, goal, alias) {
            self.goals.take(alias);
            return Err(e);
        }
        Ok(())
    }

    /// Removes an alias, if it is one. It takes no memory.
    pub fn remove(&mut self, alias: &Path)
        ensures { self.new ≡ map.remove self.old alias.now }
    {
        let Some(goal) = self.goals.take(alias) else {
            return;
        };
        self.by_goal.remove(&goal, alias);
    }

    /// Removes the aliases that lead to a path. It takes no memory, and costs their number.
    pub fn remove_goal(&mut self, path: &Path)
        ensures { self.new ≡ without_goal self.old path.now }
    {
        let Some(aliases) = self.by_goal.take(path) else {
            return;
        };
        self.goals.remove_all(&aliases);
    }

    /// Has the aliases of a page follow it from one path to another, and the old path with them: the new
    /// one is none of them any more. What needs memory comes first; then all is changed in place. It
    /// costs the number of the page's aliases.
    pub fn follow(&mut self, heap: Heap, from: &Path, to: &Path) -> Result<(), Memory>
        requires named { map.get self.old from.now ≡ None }
        requires apart { from.now ≢ to.now }
        requires free { (alias : Seq ℕ) → map.get self.old alias ≢ Some to.now }
        ensures ok { OnOk result (self.new ≡ aliases_after self.old from.now to.now) }
        ensures err { OnErr result (self.new ≡ self.old) }
    {
        self.add(heap, from, from)?;
        if let Err(e) = self.redirect(heap, from, to) {
            self.remove(from);
            return Err(e);
        }
        self.remove(to);
        Ok(())
    }

    /// Has the aliases that lead to one path lead to another, to which none leads.
    fn redirect(&mut self, heap: Heap, from: &Path, to: &Path) -> Result<(), Memory>
        requires apart { from.now ≢ to.now }
        requires free { (alias : Seq ℕ) → map.get self.old alias ≢ Some to.now }
        ensures ok { OnOk result (self.new ≡ map_values (goal_after from.now to.now) self.old) }
        ensures err { OnErr result (self.new ≡ self.old) }
    {
        let mut copies = self.by_goal.copies_for(heap, from, to)?;
        self.by_goal.insert(to.copy(heap)?, PathSet::new(heap))?;
        let Some(aliases) = self.by_goal.take(from) else {
            return Ok(());
        };
        self.goals.set_all(&aliases, &mut copies);
        self.by_goal.replace(to, aliases);
        Ok(())
    }
}

/// A path alone.
fn alone(heap: Heap, path: &Path) -> Result<Vec<&Path>, Memory>
    ensures { IfOk result (λ names. texts_of names.items ≡ path.now ∷ []) }
{
    let mut names = Vec::new(heap);
    names.push(path)?;
    Ok(names)
}
