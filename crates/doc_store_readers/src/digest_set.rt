//! Sets of digests.

ghost use Rattle.std.specs.Prelude.{◌≡◌, OnOk, OnErr};
ghost use Rattle.std.specs.FinMap as map;

use doc_page_parts::failure::Memory;
use doc_page_parts::heap::{BTreeMap, Heap};
use std::marker::Model;

/// A set of digests. Contracts see a map with a value at each.
#[derive(Drop)]
pub struct DigestSet {
    entries: BTreeMap<[u8; 32], ()>,
}

impl Model for DigestSet {
    ghost use Rattle.std.specs.Prelude.{⊤};
    ghost use Rattle.std.specs.Coded.{coded_ℕ, coded_list};
    ghost use Rattle.std.specs.FinMap as map;
    ghost use Rattle.doc_store_readers.specs.Maps.{TextMap, present_code};

    ghost Value = { TextMap ⊤ };

    ghost coded = { map.code (coded_list coded_ℕ) present_code };

    ghost view = { λ s. map.from_entries s.entries.entries };
}

impl DigestSet {
    pub fn new(heap: Heap) -> DigestSet
        ensures { result ≡ map.empty }
    {
        DigestSet {
            entries: BTreeMap::new(heap),
        }
    }

    pub fn contains(&self, digest: &[u8; 32]) -> bool
        ensures { result ≡ map.contains_key self.now digest.now }
    {
        self.entries.contains_key(digest)
    }

    /// Adds a digest, which may be there already.
    pub fn insert(&mut self, digest: [u8; 32]) -> Result<(), Memory>
        ensures ok { OnOk result (self.new ≡ map.insert self.old digest tt) }
        ensures err { OnErr result (self.new ≡ self.old) }
    {
        self.entries.insert(digest, ())?;
        Ok(())
    }
}
