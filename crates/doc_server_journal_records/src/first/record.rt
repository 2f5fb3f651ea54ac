//! The digests of records of the first form.

ghost use Rattle.std.specs.Prelude.{◌≡◌, ◌≤◌, length};
ghost use Rattle.doc_server_journal_records.specs.FirstRecords.{text_limit, seed, digest_behind};

use sha2::{Digest, Sha256};

/// How many bytes the text of a record may have: 16 MiB.
pub const TEXT_LIMIT: usize = 16_777_216;

/// What stands in for the digest of a record before the first.
#[tactic(auto, unfolding(crate::specs::FirstRecords::seed))]
pub fn seed() -> [u8; 32]
    ensures { result ≡ seed }
{
    Sha256::digest(b"docs_server journal 1")
}

/// The digest of a record of this text, behind a record of that digest.
#[tactic(auto, unfolding(crate::specs::FirstRecords::text_limit, crate::specs::FirstRecords::length_bytes, crate::specs::FirstRecords::digest_behind))]
pub fn digest_behind(before: &[u8; 32], text: &[u8]) -> [u8; 32]
    requires { length text.now ≤ text_limit }
    ensures { result ≡ digest_behind before.now text.now }
{
    let mut hasher = Sha256::new();
    hasher.update(before.as_slice());
    hasher.update((text.len() as u32).to_le_bytes());
    hasher.update(text);
    hasher.finalize()
}
