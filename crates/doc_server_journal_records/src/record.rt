//! Records as bytes.

ghost use Rattle.std.specs.Prelude.{◌≡◌, ◌≤◌, ◌<◌, ◌^◌, ◌++◌, ◌∷◌, [], length, IfOk};
ghost use Rattle.std.specs.List.{list_all};
ghost use Rattle.sha2.specs.Sha256.{sha256};
ghost use Rattle.doc_server_journal_records.specs.Records.{text_limit, foot_of, digest_behind, record_bytes, time_of, is_plain, closed_gate};

use crate::hexadecimal::{digest_digits, length_digits, time_digits};
use doc_page_parts::bytes::Bytes;
use doc_page_parts::failure::Memory;
use doc_page_parts::heap::{Heap, Vec};
use sha2::{Digest, Sha256};

/// How many bytes the text of a record may have: 8 MiB.
pub const TEXT_LIMIT: usize = 8_388_608;

/// The gate in front of a record.
pub const OPEN_GATE: u8 = 0xff;

/// The gate behind the last record.
pub const CLOSED_GATE: u8 = 0xf0;

/// How many bytes stand in front of a text: its length, a space, its time and a line feed.
pub const HEAD_LEN: usize = 20;

/// How many bytes stand behind a text: a digest and a line feed.
pub const FOOT_LEN: usize = 65;

/// What stands behind a text.
pub fn foot_of(digest: &[u8; 32]) -> [u8; 65]
    ensures { result ≡ foot_of digest.now }
{
    let mut foot = [b'\n'; FOOT_LEN];
    foot[..64].copy_from_slice(digest_digits(digest).as_slice());
    foot
}

/// The digest of a record, behind one of that digest.
pub fn digest_of(before: &[u8; 32], head: &[u8], text: &[u8]) -> [u8; 32]
    ensures { result ≡ sha256 (before.now ++ (head.now ++ text.now)) }
{
    let mut hasher = Sha256::new();
    hasher.update(before.as_slice());
    hasher.update(head);
    hasher.update(text);
    hasher.finalize()
}

/// Whether all are bytes of a record: line feeds, or printable ASCII.
pub fn is_plain(text: &[u8]) -> bool
    ensures { result ≡ list_all is_plain text.now }
{
    text.iter().all(|byte| is_plain_byte(*byte))
}

fn is_plain_byte(byte: u8) -> bool
    ensures { result ≡ is_plain byte }
{
    byte == b'\n' || (b' ' <= byte && byte <= b'~')
}

/// A record as bytes, with the closed gate behind it, and its digest.
#[derive(Drop)]
pub struct Record {
    pub bytes: Bytes,
    pub digest: [u8; 32],
}

impl Record {
    /// The record of this text, of at most 8 MiB, written so many seconds after 1970 began, behind a record of that
    /// digest.
    #[tactic(auto, unfolding(crate::specs::Records::text_limit, crate::specs::Records::digest_behind, crate::specs::Records::record_bytes))]
    pub fn new(heap: Heap, before: &[u8; 32], seconds: u64, text: &[u8]) -> Result<Record, Memory>
        requires { length text.now ≤ text_limit }
        ensures bytes { IfOk result (λ r. r.bytes ≡ record_bytes before.now
            (record { time = time_of seconds; text = text.now }) ++ closed_gate ∷ []) }
        ensures digest { IfOk result (λ r. r.digest ≡ digest_behind before.now
            (record { time = time_of seconds; text = text.now })) }
    {
        let mut bytes = Vec::new(heap);
        bytes.extend_from_slice(&length_digits(text.len() as u32))?;
        bytes.push(b' ')?;
        bytes.extend_from_slice(&time_digits(seconds))?;
        bytes.push(b'\n')?;
        let digest = digest_of(before, bytes.as_slice(), text);
        bytes.extend_from_slice(text)?;
        bytes.extend_from_slice(&foot_of(&digest))?;
        bytes.push(CLOSED_GATE)?;
        Ok(Record {
            bytes: Bytes::new(bytes),
            digest,
        })
    }
}
