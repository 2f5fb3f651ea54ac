//! Digests of tokens, and the rows of readers who have them.

ghost use Rattle.std.specs.Prelude.{◌≡◌, OnOk};
ghost use Rattle.std.specs.FinMap as map;
ghost use Rattle.sha2.specs.Sha256.{sha256};

use doc_page_parts::failure::Memory;
use doc_page_parts::heap::{BTreeMap, Heap};
use sha2::{Digest, Sha256};
use std::marker::Model;

/// The digest of a token.
pub(crate) fn digest_of(token: &str) -> [u8; 32]
    ensures { result ≡ sha256 token.now }
{
    Sha256::digest(token.as_bytes())
}

/// The rows that have a digest, by it. Contracts see the map.
#[derive(Drop)]
pub(crate) struct DigestRows {
    entries: BTreeMap<[u8; 32], usize>,
}

impl Model for DigestRows {
    ghost use Rattle.std.specs.Prelude.{ℕ};
    ghost use Rattle.std.specs.Coded.{coded_ℕ, coded_list};
    ghost use Rattle.std.specs.FinMap as map;
    ghost use Rattle.doc_store_readers.specs.Maps.{TextMap};

    ghost Value = { TextMap ℕ };

    ghost coded = { map.code (coded_list coded_ℕ) coded_ℕ };

    ghost view = { λ r. map.from_entries r.entries.entries };
}

impl DigestRows {
    pub(crate) fn none(heap: Heap) -> DigestRows
        ensures { result ≡ map.empty }
    {
        DigestRows {
            entries: BTreeMap::new(heap),
        }
    }

    /// Says that a row has a digest.
    pub(crate) fn insert(&mut self, digest: [u8; 32], row: usize) -> Result<(), Memory>
        ensures { OnOk result (self.new ≡ map.insert self.old digest row) }
    {
        self.entries.insert(digest, row)?;
        Ok(())
    }

    /// The last row that has a digest.
    pub(crate) fn row_of(&self, digest: &[u8; 32]) -> Option<usize>
        ensures { result ≡ map.get self.now digest.now }
    {
        match self.entries.get(digest) {
            Some(row) => Some(*row),
            None => None,
        }
    }
}
