//! Which row has a reader of a token.

ghost use Rattle.std.specs.Prelude.{◌≡◌, OnOk};
ghost use Rattle.doc_store_readers.specs.declared.keys.Key.TheVariants as keys;
ghost use Rattle.doc_server_lint.specs.Faults.{known_as, known_with, nobody_known};

use crate::digests::{DigestRows, digest_of};
use crate::rows::Rows;
use doc_page_parts::failure::Memory;
use doc_page_parts::heap::Heap;
use doc_page_parts::text::Text;

/// The rows of readers: by their tokens, by the digests that stand in the place of these, and by the digests of the tokens.
#[derive(Drop)]
pub(crate) struct KnownReaders {
    by_token: Rows,
    by_digest: DigestRows,
    of_tokens: DigestRows,
}

impl KnownReaders {
    pub(crate) fn none(heap: Heap) -> KnownReaders
        ensures { result ≡ nobody_known }
    {
        KnownReaders {
            by_token: Rows::none(heap),
            by_digest: DigestRows::none(heap),
            of_tokens: DigestRows::none(heap),
        }
    }

    /// The row of a reader of the token.
    pub(crate) fn with_token(&self, token: &Text) -> Option<usize>
        ensures { result ≡ known_as self.now (keys.Token token.now) }
    {
        match self.by_token.row_of(token) {
            Some(row) => Some(row),
            None => self.by_digest.row_of(&digest_of(token.get())),
        }
    }

    /// The row of a reader of a token of the digest.
    pub(crate) fn with_digest(&self, digest: &[u8; 32]) -> Option<usize>
        ensures { result ≡ known_as self.now (keys.Digest digest.now) }
    {
        match self.by_digest.row_of(digest) {
            Some(row) => Some(row),
            None => self.of_tokens.row_of(digest),
        }
    }

    /// Says that a row has the reader of the token.
    pub(crate) fn add_token(&mut self, token: Text, row: usize) -> Result<(), Memory>
        ensures { OnOk result (self.new ≡ known_with self.old (keys.Token token) row) }
    {
        self.of_tokens.insert(digest_of(token.get()), row)?;
        self.by_token.insert(token, row)
    }

    /// Says that a row has the reader of the digest.
    pub(crate) fn add_digest(&mut self, digest: [u8; 32], row: usize) -> Result<(), Memory>
        ensures { OnOk result (self.new ≡ known_with self.old (keys.Digest digest) row) }
    {
        self.by_digest.insert(digest, row)
    }
}
