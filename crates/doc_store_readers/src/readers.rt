//! The readers of a site by their tokens.

ghost use Rattle.std.specs.Prelude.{◌≡◌, ◌≢◌, IfOk, IfErr, OnOk, OnErr, Ok, Err, is_some, option_copied};
ghost use Rattle.std.specs.FinMap as map;
ghost use Rattle.doc_page_parts.specs.Refusals.{Gives};
ghost use Rattle.doc_store_readers.specs.Readers.{find_in, no_readers, readers_of, set_reader, without_reader};

use crate::copies::{copy_named, copy_of_digests};
use crate::documents::readers_of_document;
use crate::keys::digest_of;
use crate::reader::Reader;
use crate::tables::document_of;
use doc_page_parts::failure::Memory;
use doc_page_parts::heap::{BTreeMap, Heap, String};
use doc_page_parts::text::Text;
use doc_page_parts::token::is_token;
use std::fmt;
use std::fmt::Debug;
use std::marker::Model;
use thiserror::Error;

/// Why a configuration has no readers. Entries are counted from 1.
#[derive(Clone, Copy, Debug, PartialEq, Eq, Error)]
pub enum ReadersError {
    /// The text is no TOML document, or its `reader` is no array of tables.
    #[error("no TOML with an array of readers")]
    BadToml,
    /// The first reader entry without a token or the digest of one, with both, or with a key of a
    /// wrong value.
    #[error("reader {0} is bad")]
    BadRow(usize),
    /// The first reader entry with the token of an earlier one, or with its digest.
    #[error("reader {0} has the token of an earlier one")]
    Twice(usize),
    #[error("{}", Memory)]
    Memory,
}

impl From<Memory> for ReadersError {
    ghost use Rattle.std.specs.Prelude.{◌≡◌};
    ghost use Rattle.doc_store_readers.specs.declared.readers.ReadersError.TheVariants as refusals;

    ghost from_gives = { λ _ e. e ≡ refusals.Memory };

    fn from(_e: Memory) -> ReadersError {
        ReadersError::Memory
    }
}

/// What setting a reader did.
#[derive(Clone, Copy, Debug, PartialEq, Eq)]
pub enum Set {
    /// No reader had the token.
    Added,
    /// The reader with the token is another one now.
    Replaced,
}

/// Why a reader was not set.
#[derive(Clone, Copy, Debug, PartialEq, Eq, Error)]
pub enum ReaderError {
    /// The text is no bearer token (RFC 6750, section 2.1).
    #[error("not a bearer token")]
    BadToken,
    #[error("{}", Memory)]
    Memory,
}

impl From<Memory> for ReaderError {
    ghost use Rattle.std.specs.Prelude.{◌≡◌};
    ghost use Rattle.doc_store_readers.specs.declared.readers.ReaderError.TheVariants as refusals;

    ghost from_gives = { λ _ e. e ≡ refusals.Memory };

    fn from(_e: Memory) -> ReaderError {
        ReaderError::Memory
    }
}

/// The readers of a site: by their tokens, and those whose tokens aren't known by the SHA-256 of these.
/// They keep the heap that they were made with. Contracts see the two maps.
#[derive(Drop)]
pub struct Readers {
    heap: Heap,
    by_token: BTreeMap<String, Reader>,
    by_digest: BTreeMap<[u8; 32], Reader>,
}

impl Model for Readers {
    ghost use Rattle.doc_store_readers.specs.contracts.reader.Reader as one;
    ghost use Rattle.doc_store_readers.specs.Readers.{ReaderTable, by_keys, by_tokens, reader_table_code};

    ghost Value = { ReaderTable };

    ghost coded = { reader_table_code one.the_row.coded };

    ghost view = { λ r.
        record {
          by_token = by_tokens r.by_token.entries;
          by_digest = by_keys r.by_digest.entries;
        } };
}

/// No token is shown, nor a digest.
impl Debug for Readers {
    fn fmt<W: fmt::Write>(&self, f: &mut fmt::Formatter<W>) -> fmt::Result {
        f.write_str("Readers")
    }
}

impl Readers {
    /// The readers that a TOML 1.1 document lists: each table of its array `reader` has a `token`
    /// (RFC 6750, section 2.1) or a `token_sha256` (the SHA-256 of one, 64 digits of `0-9` and
    /// `a-f`), and may have `owner` (a boolean, else false) and `groups` (an array of names, else
    /// none). Other keys are ignored. `Memory` may be answered before another fault is found.
    pub fn from_toml(heap: Heap, text: &str) -> Result<Readers, ReadersError>
        ensures read { IfOk result (λ readers. readers_of text.now ≡ Ok readers) }
        ensures refused { IfErr result
            (λ e. e ≢ ReadersError.Memory → readers_of text.now ≡ Err e) }
    {
        let document = document_of(heap, text)?;
        readers_of_document(heap, &document)
    }

    pub(crate) fn new(heap: Heap) -> Readers
        ensures { result ≡ no_readers }
    {
        Readers {
            heap,
            by_token: BTreeMap::new(heap),
            by_digest: BTreeMap::new(heap),
        }
    }

    pub fn copy(&self, heap: Heap) -> Result<Readers, Memory>
        ensures { IfOk result (λ copy. copy ≡ self.now) }
    {
        Ok(Readers {
            heap,
            by_token: copy_named(heap, &self.by_token)?,
            by_digest: copy_of_digests(heap, &self.by_digest)?,
        })
    }

    /// Sets the reader of a token, and no other. A reader of its digest gives way. Refused are, in
    /// this order, `BadToken` and `Memory`; then nothing changes.
    pub fn set(&mut self, token: &str, reader: &Reader) -> Result<Set, ReaderError>
        ensures { Gives ReaderError.Memory
            (set_reader self.old token.now reader.now) self.old self.new result }
    {
        if !is_token(token.as_bytes()) {
            return Err(ReaderError::BadToken);
        }
        let reader = reader.copy(self.heap)?;
        let key = Text::copy_of(self.heap, token)?;
        let stands = self.find(token).is_some();
        self.insert(key, reader)?;
        self.remove_digest(&digest_of(token));
        Ok(if stands { Set::Replaced } else { Set::Added })
    }

    /// Removes the reader with the token, and no other. `false` says that there is none. It takes no
    /// memory.
    pub fn remove(&mut self, token: &str) -> bool
        ensures answer { result ≡ is_some (find_in self.old token.now) }
        ensures readers { self.new ≡ without_reader self.old token.now }
    {
        let stands = self.find(token).is_some();
        self.remove_token(token);
        self.remove_digest(&digest_of(token));
        stands
    }

    /// Sets the reader of a token.
    pub(crate) fn insert(&mut self, token: Text, reader: Reader) -> Result<(), Memory>
        ensures ok { OnOk result
            (self.new ≡ record self.old { by_token = map.insert self.old.by_token token reader }) }
        ensures err { OnErr result (self.new ≡ self.old) }
    {
        self.by_token.insert(token.into_inner(), reader)?;
        Ok(())
    }

    /// Sets the reader of a digest.
    pub(crate) fn insert_digest(&mut self, digest: [u8; 32], reader: Reader) -> Result<(), Memory>
        ensures ok { OnOk result
            (self.new ≡ record self.old { by_digest = map.insert self.old.by_digest digest reader }) }
        ensures err { OnErr result (self.new ≡ self.old) }
    {
        self.by_digest.insert(digest, reader)?;
        Ok(())
    }

    fn remove_token(&mut self, token: &str)
        ensures { self.new ≡ record self.old { by_token = map.remove self.old.by_token token.now } }
    {
        self.by_token.remove(token);
    }

    fn remove_digest(&mut self, digest: &[u8; 32])
        ensures { self.new ≡ record self.old { by_digest = map.remove self.old.by_digest digest.now } }
    {
        self.by_digest.remove(digest);
    }

    /// The reader with the token.
    #[tactic(auto, unfolding(crate::specs::Readers::find_in))]
    pub fn find(&self, token: &str) -> Option<&Reader>
        ensures { option_copied result ≡ find_in self.now token.now }
    {
        match self.named(token) {
            Some(reader) => Some(reader),
            None => self.with_digest(&digest_of(token)),
        }
    }

    /// The reader whom the token names.
    pub(crate) fn named(&self, token: &str) -> Option<&Reader>
        ensures { option_copied result ≡ map.get self.now.by_token token.now }
    {
        self.by_token.get(token)
    }

    /// The reader whom the digest of a token names.
    pub(crate) fn with_digest(&self, digest: &[u8; 32]) -> Option<&Reader>
        ensures { option_copied result ≡ map.get self.now.by_digest digest.now }
    {
        self.by_digest.get(digest)
    }
}
