//! Media by their paths.

ghost use Rattle.std.specs.Prelude.{◌≡◌, IfOk, OnOk, OnErr, option_copied};
ghost use Rattle.std.specs.FinMap as map;
ghost use Rattle.doc_media.specs.Held.{held_by};

use crate::medium::Medium;
use doc_page_parts::failure::Memory;
use doc_page_parts::heap::{BTreeMap, Heap};
use doc_page_parts::path::Path;
use std::collections::btree_map::Keys;
use std::marker::Model;

/// Media by their paths. Contracts see the map.
#[derive(Drop)]
pub struct HeldMedia {
    entries: BTreeMap<Path, Medium>,
}

impl Model for HeldMedia {
    ghost use Rattle.std.specs.Coded.{coded_ℕ, coded_list};
    ghost use Rattle.std.specs.FinMap as map;
    ghost use Rattle.doc_media.specs.contracts.medium.Medium as one;
    ghost use Rattle.doc_media.specs.declared.medium.Medium as medium;
    ghost use Rattle.doc_store_readers.specs.Maps.{TextMap};

    ghost Value = { TextMap medium.Medium };

    ghost coded = { map.code (coded_list coded_ℕ) one.the_row.coded };

    ghost view = { λ m. map.from_entries m.entries.entries };
}

impl HeldMedia {
    pub fn new(heap: Heap) -> HeldMedia
        ensures { result ≡ map.empty }
    {
        HeldMedia {
            entries: BTreeMap::new(heap),
        }
    }

    pub fn len(&self) -> usize
        ensures { result ≡ map.len self.now }
    {
        self.entries.len()
    }

    pub fn contains(&self, path: &Path) -> bool
        ensures { result ≡ map.contains_key self.now path.now }
    {
        self.entries.contains_key(path)
    }

    pub fn get(&self, path: &Path) -> Option<&Medium>
        ensures { option_copied result ≡ map.get self.now path.now }
    {
        self.entries.get(path)
    }

    /// The paths of the media, in their order.
    pub fn paths(&self) -> Keys<'_, Path, Medium>
        ensures { result ≡ map.keys self.now }
    {
        self.entries.keys()
    }

    pub fn copy(&self, heap: Heap) -> Result<HeldMedia, Memory>
        ensures { IfOk result (λ copy. copy ≡ self.now) }
    {
        Ok(HeldMedia {
            entries: copy_of(heap, &self.entries)?,
        })
    }

    /// Sets the medium of a path.
    pub fn insert(&mut self, path: Path, medium: Medium) -> Result<(), Memory>
        ensures ok { OnOk result (self.new ≡ map.insert self.old path medium) }
        ensures err { OnErr result (self.new ≡ self.old) }
    {
        self.entries.insert(path, medium)?;
        Ok(())
    }
}

/// The same media by the same paths.
fn copy_of(heap: Heap, media: &BTreeMap<Path, Medium>) -> Result<BTreeMap<Path, Medium>, Memory>
    ensures { IfOk result (λ copies. held_by copies.entries ≡ held_by media.now.entries) }
{
    let mut copies = BTreeMap::new(heap);
    for (path, medium) in media.iter() {
        let key = path.copy(heap)?;
        let copy = medium.copy(heap)?;
        copies.insert(key, copy)?;
    }
    Ok(copies)
}
