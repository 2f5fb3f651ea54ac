//! Names by text.

ghost use Rattle.std.specs.Prelude.{◌≡◌, None, IfOk, IfNone, OnOk, OnErr, string_bytes};
ghost use Rattle.std.specs.FinMap as map;
ghost use Rattle.doc_links_names.specs.NameSteps.{freed, used_by};
ghost use Rattle.doc_links_names.specs.Names.{number_of, without_use};

use crate::name::Name;
use doc_page_parts::failure::Memory;
use doc_page_parts::heap::{BTreeMap, Heap, String};
use std::marker::Model;

/// Names by text. Contracts see the map.
#[derive(Drop)]
pub(crate) struct NameMap {
    names: BTreeMap<String, Name>,
}

impl Model for NameMap {
    ghost use Rattle.std.specs.Coded.{coded_ℕ, coded_list};
    ghost use Rattle.std.specs.FinMap as map;
    ghost use Rattle.doc_index_tables.specs.Maps.{text_map};
    ghost use Rattle.doc_links_names.specs.NameSteps.{name_code};
    ghost use Rattle.doc_links_names.specs.Names.{NameTable};

    ghost Value = { NameTable };

    ghost coded = { map.code (coded_list coded_ℕ) name_code };

    ghost view = { λ m. text_map m.names };
}

impl NameMap {
    /// No names. It takes no memory.
    pub(crate) fn new(heap: Heap) -> NameMap
        ensures { result ≡ map.empty }
    {
        NameMap {
            names: BTreeMap::new(heap),
        }
    }

    /// The number of a text.
    pub(crate) fn number(&self, text: &str) -> Option<usize>
        ensures { result ≡ number_of self.now text.now }
    {
        let Some(name) = self.names.get(text) else {
            return None;
        };
        Some(name.number)
    }

    /// Lets a slot use a text that has a name, and tells its number.
    pub(crate) fn use_by(&mut self, text: &str, slot: usize) -> Result<Option<usize>, Memory>
        ensures number { IfOk result (λ number. number ≡ number_of self.old text.now) }
        ensures used { OnOk result (self.new ≡ used_by self.old text.now slot) }
        ensures err { OnErr result (self.new ≡ self.old) }
    {
        let Some(name) = self.names.get_mut(text) else {
            return Ok(None);
        };
        name.slots.set(slot as u64, 0)?;
        Ok(Some(name.number))
    }

    /// Sets the name of a text.
    pub(crate) fn insert(&mut self, text: String, name: Name) -> Result<(), Memory>
        ensures ok { OnOk result (self.new ≡ map.insert self.old (string_bytes text) name) }
        ensures err { OnErr result (self.new ≡ self.old) }
    {
        self.names.insert(text, name)?;
        Ok(())
    }

    /// Lets a slot use a text no longer. A name that no slot uses goes, and its number is told. It takes no memory.
    pub(crate) fn take(&mut self, text: &str, slot: usize) -> Option<usize>
        ensures freed { result ≡ freed self.old text.now slot }
        ensures rest { self.new ≡ without_use self.old text.now slot }
    {
        let number = self.take_slot(text, slot)?;
        self.remove(text);
        Some(number)
    }

    fn remove(&mut self, text: &str)
        ensures { self.new ≡ map.remove self.old text.now }
    {
        self.names.remove(text);
    }

    /// Takes a slot out of the name of a text, and tells the number of a name that no slot uses any more.
    fn take_slot(&mut self, text: &str, slot: usize) -> Option<usize>
        ensures freed { result ≡ freed self.old text.now slot }
        ensures rest { map.remove self.new text.now ≡ map.remove self.old text.now }
        ensures kept { IfNone result (self.new ≡ without_use self.old text.now slot) }
    {
        let Some(name) = self.names.get_mut(text) else {
            return None;
        };
        name.slots.take(slot as u64);
        if name.slots.len() > 0 {
            return None;
        }
        Some(name.number)
    }
}
