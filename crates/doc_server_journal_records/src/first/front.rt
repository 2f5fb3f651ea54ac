//! The record that bytes begin with.

ghost use Rattle.std.specs.Prelude.{◌≡◌, ◌<◌, ◌^◌, length, IfSome, IsNone, true, false};
ghost use Rattle.std.specs.Int.{w32, to_le_bytes, from_le_bytes};
ghost use Rattle.doc_server_journal_records.specs.FirstRecords.{digest_behind};
ghost use Rattle.doc_server_journal_records.specs.FirstReadings.{IsRecord, HasNoRecord, IsOpenRecord, HasNoOpenRecord, IsTail, IsEnd};

use crate::first::record::{TEXT_LIMIT, digest_behind};

/// How many bytes may stand behind a closed gate: those of the longest record, and a gate.
const TAIL_LIMIT: usize = TEXT_LIMIT + 37;

/// A record at the front of bytes, and the rest behind it.
#[derive(Clone, Copy)]
pub struct Front<'a> {
    pub text: &'a [u8],
    pub digest: [u8; 32],
    pub rest: &'a [u8],
}

/// The length that four bytes write.
fn written_len(bytes: &[u8]) -> usize
    requires { length bytes.now ≡ 4 }
    ensures len { result ≡ from_le_bytes w32 bytes.now }
    ensures back { to_le_bytes w32 result ≡ bytes.now }
    ensures bound { result < 2 ^ 32 }
{
    u32::from_le_bytes([bytes[0], bytes[1], bytes[2], bytes[3]]) as usize
}

/// The record that bytes begin with, behind a record of that digest.
pub fn first_record<'a>(before: &[u8; 32], bytes: &'a [u8]) -> Option<Front<'a>>
    ensures found { IfSome result
        (λ f. IsRecord before.now f.text.now bytes.now f.rest.now
        × (f.digest ≡ digest_behind before.now f.text.now)) }
    ensures none { IsNone result → HasNoRecord before.now bytes.now }
{
    if bytes.len() < 36 {
        return None;
    }
    let (head, behind) = bytes.split_at(4);
    let len = written_len(head);
    if len > TEXT_LIMIT {
        return None;
    }
    if behind.len() < len + 32 {
        return None;
    }
    let (text, after) = behind.split_at(len);
    let (written, rest) = after.split_at(32);
    let digest = digest_behind(before, text);
    if written == digest.as_slice() {
        return Some(Front { text, digest, rest });
    }
    None
}

/// The same behind an open gate.
pub fn open_record<'a>(before: &[u8; 32], bytes: &'a [u8]) -> Option<Front<'a>>
    ensures found { IfSome result
        (λ f. IsOpenRecord before.now f.text.now bytes.now f.rest.now
        × (f.digest ≡ digest_behind before.now f.text.now)) }
    ensures none { IsNone result → HasNoOpenRecord before.now bytes.now }
{
    match bytes {
        [1, behind @ ..] => first_record(before, behind),
        _ => None,
    }
}

/// Whether the bytes may stand behind the closed gate of a journal.
#[tactic(auto, unfolding(crate::specs::FirstReadings::tail_limit, crate::specs::FirstRecords::text_limit))]
pub fn is_tail(before: &[u8; 32], bytes: &[u8]) -> bool
    ensures yes { result ≡ true → IsTail before.now bytes.now }
    ensures no { result ≡ false → IsTail before.now bytes.now → ⊥ }
{
    match first_record(before, bytes) {
        Some(front) => front.rest.len() <= 1,
        None => bytes.len() <= TAIL_LIMIT,
    }
}

/// Whether the bytes are a closed gate and what may stand behind it.
pub fn is_end(before: &[u8; 32], bytes: &[u8]) -> bool
    ensures yes { result ≡ true → IsEnd before.now bytes.now }
    ensures no { result ≡ false → IsEnd before.now bytes.now → ⊥ }
{
    match bytes {
        [0, behind @ ..] => is_tail(before, behind),
        _ => false,
    }
}
