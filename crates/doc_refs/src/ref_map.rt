//! The targets of labels.
ghost use Rattle.std.specs.Prelude.{◌≡◌, chars, string_bytes, OnOk, OnErr};
ghost use Rattle.std.specs.FinMap as finite;
ghost use Rattle.doc_refs_parts.specs.Targets.{target_found, target_shown, single, joined};
ghost use Rattle.doc_refs.specs.EntrySteps.{targets_shown, with_entry, earlier, AreGrown};

use doc_page_parts::failure::Memory;
use doc_page_parts::heap::{BTreeMap, Heap, String};
use doc_refs_parts::target::Target;
use std::marker::Model;

/// What labels name, by the labels as [`crate::normalize_label`] gives them: of several definitions of a label the first.
/// Contracts see a finite map of targets by labels. Outside this crate there are only maps of definitions: a new one, those of
/// [`crate::take_definitions`], and what was joined from them.
#[derive(Drop)]
pub struct RefMap {
    entries: BTreeMap<String, Entry>,
}

/// A target, and how many labels stood in the map before this one came.
#[derive(Drop)]
struct Entry {
    before: usize,
    target: Target,
}

impl Model for RefMap {
    ghost use Rattle.doc_refs_parts.specs.Targets.{Targets, targets_code};
    ghost use Rattle.doc_refs.specs.EntrySteps.{targets_shown, AreEntries};

    ghost Value = { Targets };

    ghost coded = { targets_code };

    ghost view = { λ m. targets_shown m.entries.entries };

    ghost invariant = { λ m. AreEntries m.entries.entries };
}

impl RefMap {
    /// A map without labels. Takes no memory.
    pub fn new(heap: Heap) -> RefMap
        ensures { result ≡ finite.empty }
    {
        RefMap {
            entries: BTreeMap::new(heap),
        }
    }

    /// What a label names, which is given as [`crate::normalize_label`] gives it. Takes logarithmic time and no memory.
    pub fn find(&self, normalised: &str) -> Option<&Target>
        ensures { target_found result ≡ finite.get self.now (chars normalised.now) }
    {
        match self.entries.get(normalised) {
            Some(entry) => Some(&entry.target),
            None => None,
        }
    }

    /// Lets a label name a target, where it names none yet.
    pub(crate) fn add(&mut self, label: String, target: Target) -> Result<(), Memory>
        ensures ok { OnOk result (self.new
            ≡ joined self.old (single (chars (string_bytes label)) (target_shown target))) }
        ensures err { OnErr result (self.new ≡ self.old) }
    {
        put(&mut self.entries, label, target)
    }

    /// Adds the labels of another map that name nothing here yet. Where memory runs out this map is as before, and the other one is
    /// dropped in any case.
    pub fn join(&mut self, other: RefMap) -> Result<(), Memory>
        ensures ok { OnOk result (self.new ≡ joined self.old other) }
        ensures err { OnErr result (self.new ≡ self.old) }
    {
        let before = self.entries.len();
        match put_all(&mut self.entries, other.entries) {
            Ok(()) => Ok(()),
            Err(error) => {
                keep_earlier(&mut self.entries, before);
                Err(error)
            }
        }
    }
}

/// Puts in an entry for a label, where there is none yet.
fn put(entries: &mut BTreeMap<String, Entry>, label: String, target: Target) -> Result<(), Memory>
    ensures ok { OnOk result (entries.new.entries
        ≡ with_entry entries.old.entries label target) }
    ensures err { OnErr result (entries.new.entries ≡ entries.old.entries) }
{
    if entries.contains_key(label.as_str()) {
        return Ok(());
    }
    let before = entries.len();
    entries.insert(label, Entry { before, target })?;
    Ok(())
}

/// Puts in the entries of another map whose labels have none yet, up to the one for which memory runs out.
fn put_all(
    entries: &mut BTreeMap<String, Entry>,
    other: BTreeMap<String, Entry>,
) -> Result<(), Memory>
    ensures ok { OnOk result (targets_shown entries.new.entries
        ≡ joined (targets_shown entries.old.entries) (targets_shown other.entries)) }
    ensures grown { AreGrown entries.old.entries entries.new.entries }
{
    'labels: for (label, entry) in other {
        put(entries, label, entry.target)?;
    }
    Ok(())
}

/// Drops the entries that didn't come when there were fewer than this.
fn keep_earlier(entries: &mut BTreeMap<String, Entry>, before: usize)
    ensures { entries.new.entries ≡ earlier before entries.old.entries }
{
    entries.retain(|_, entry| entry.before < before);
}
