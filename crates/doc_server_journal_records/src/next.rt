//! What stands where a record may begin.

ghost use Rattle.std.specs.Prelude.{◌≡◌, ◌≤◌, ◌<◌, ℕ, List as Seq, length, true, false, IfSome, IsNone};
ghost use Rattle.doc_server_journal_records.specs.Records.{AreDigits, head_of, text_limit};
ghost use Rattle.doc_server_journal_records.specs.Readings.{IsNext, IsNextBehind, IsTime};

use crate::hexadecimal::{are_digits, written_length};
use crate::record::{FOOT_LEN, HEAD_LEN, TEXT_LIMIT, digest_of, foot_of, is_plain};

/// A record at the front of bytes, and the rest behind it.
#[derive(Clone, Copy)]
pub struct Front<'a> {
    pub text: &'a [u8],
    pub digest: [u8; 32],
    pub rest: &'a [u8],
}

/// What stands where a record may begin.
#[derive(Clone, Copy)]
pub enum Next<'a> {
    /// A record behind an open gate.
    Whole(Front<'a>),
    /// No byte, a closed gate, or an open one and too few bytes behind it.
    NotYet,
    /// Anything else.
    Damaged,
}

/// What the bytes begin with, behind a record of that digest: all that a reader of a growing journal reads by.
pub fn next_record<'a>(before: &[u8; 32], bytes: &'a [u8]) -> Next<'a>
    ensures { IsNext before.now bytes.now result }
{
    match bytes {
        [] | [0xf0, ..] => Next::NotYet,
        [0xff, behind @ ..] => record_at(before, behind),
        _ => Next::Damaged,
    }
}

/// The same behind the open gate.
#[tactic(auto, unfolding(crate::specs::Records::text_limit))]
fn record_at<'a>(before: &[u8; 32], bytes: &'a [u8]) -> Next<'a>
    ensures { IsNextBehind before.now bytes.now result }
{
    if bytes.len() < HEAD_LEN {
        return Next::NotYet;
    }
    let (head, behind) = bytes.split_at(HEAD_LEN);
    let Some(len) = text_len(head) else {
        return Next::Damaged;
    };
    if behind.len() < len + FOOT_LEN {
        return Next::NotYet;
    }
    let (text, after) = behind.split_at(len);
    let (foot, rest) = after.split_at(FOOT_LEN);
    if !is_plain(text) {
        return Next::Damaged;
    }
    let digest = digest_of(before, head, text);
    if foot == foot_of(&digest).as_slice() {
        return Next::Whole(Front { text, digest, rest });
    }
    Next::Damaged
}

/// The length that stands in what may be the head of a record.
#[tactic(auto, unfolding(crate::specs::Records::text_limit))]
fn text_len(head: &[u8]) -> Option<usize>
    requires { length head.now ≡ 20 }
    ensures found { IfSome result (λ len. (len ≤ text_limit)
        × ((time : Seq ℕ) × AreDigits 10 time × (head.now ≡ head_of len time))) }
    ensures none { IsNone result → (count : ℕ) (time : Seq ℕ) → count ≤ text_limit
        → AreDigits 10 time → head.now ≡ head_of count time → ⊥ }
{
    let (digits, behind) = head.split_at(8);
    let Some(len) = written_length(digits) else {
        return None;
    };
    if len as usize > TEXT_LIMIT {
        return None;
    }
    if !is_time(behind) {
        return None;
    }
    Some(len as usize)
}

/// Whether the bytes are a space, ten digits and a line feed.
fn is_time(bytes: &[u8]) -> bool
    ensures yes { result ≡ true → IsTime bytes.now }
    ensures no { result ≡ false → IsTime bytes.now → ⊥ }
{
    match bytes {
        [b' ', time @ .., b'\n'] => time.len() == 10 && are_digits(time),
        _ => false,
    }
}
