//! The readers that reader entries list.

ghost use Rattle.std.specs.Prelude.{◌≡◌, ◌≢◌, false, IfOk, IfErr, OnOk, Ok, Err};
ghost use Rattle.std.specs.FinMap as map;
ghost use Rattle.sha2.specs.Sha256.{sha256};
ghost use Rattle.doc_store_readers.specs.Listings.{IsListing};
ghost use Rattle.doc_store_readers.specs.Readers.{Listed, comes_again, listed_with, none_listed, readers_from, table_of};

use crate::digest_set::DigestSet;
use crate::entries::Entry;
use crate::keys::{Key, digest_of};
use crate::reader::Reader;
use crate::readers::{Readers, ReadersError};
use doc_page_parts::failure::Memory;
use doc_page_parts::heap::Heap;
use doc_page_parts::list::List;
use doc_page_parts::text::Text;

/// Readers as they are listed: the table so far, and the digests of the tokens in it.
#[derive(Drop)]
struct Listing {
    readers: Readers,
    of_tokens: DigestSet,
}

impl Listing {
    fn new(heap: Heap) -> Listing
        ensures { IsListing none_listed result }
    {
        Listing {
            readers: Readers::new(heap),
            of_tokens: DigestSet::new(heap),
        }
    }

    /// Whether a reader has the key already, or one that fits the same token.
    fn has(&self, key: &Key) -> bool
        ensures { (before : Listed) → IsListing before self.now → result ≡ comes_again before key.now }
    {
        match key {
            Key::Token(token) => self.readers.find(token.get()).is_some(),
            Key::Digest(digest) => {
                self.readers.with_digest(digest).is_some() || self.of_tokens.contains(digest)
            }
        }
    }

    /// Adds a reader whose key is new.
    fn add(&mut self, key: Key, reader: Reader) -> Result<(), Memory>
        ensures { (before : Listed) → IsListing before self.old → comes_again before key ≡ false
            → OnOk result (IsListing (listed_with before key reader) self.new) }
    {
        match key {
            Key::Token(token) => self.add_token(token, reader),
            Key::Digest(digest) => self.readers.insert_digest(digest, reader),
        }
    }

    /// Adds a reader whose token is new.
    fn add_token(&mut self, token: Text, reader: Reader) -> Result<(), Memory>
        ensures ok { OnOk result (self.new ≡ record {
          readers = record self.old.readers {
            by_token = map.insert self.old.readers.by_token token reader;
          };
          of_tokens = map.insert self.old.of_tokens (sha256 token) tt;
        }) }
    {
        self.of_tokens.insert(digest_of(token.get()))?;
        self.readers.insert(token, reader)
    }
}

/// The readers of these entries, none of whom may come again.
pub fn readers_of_entries(heap: Heap, entries: List<Entry>) -> Result<Readers, ReadersError>
    ensures read { IfOk result (λ readers. table_of (readers_from none_listed 1 entries) ≡ Ok readers) }
    ensures refused { IfErr result
        (λ e. e ≢ ReadersError.Memory → readers_from none_listed 1 entries ≡ Err e) }
{
    let mut listing = Listing::new(heap);
    let mut number = 0;
    for Entry { key, reader } in entries.into_inner() {
        number += 1;
        if listing.has(&key) {
            return Err(ReadersError::Twice(number));
        }
        listing.add(key, reader)?;
    }
    Ok(listing.readers)
}
