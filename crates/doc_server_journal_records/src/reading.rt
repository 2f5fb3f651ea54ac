//! What the bytes of a journal say.

ghost use Rattle.std.specs.Prelude.{◌≡◌, ◌≤◌, length, true, false, IfOk, IfErr};
ghost use Rattle.std.specs.List.{list_all};
ghost use Rattle.doc_server_journal_records.specs.Records.{is_shut};
ghost use Rattle.doc_server_journal_records.specs.Readings.{AreRead, HasNoOpenRecord, IsEnd, IsFound, IsNoJournal, IsWhy, last_size};

use crate::first::reading::read as read_first;
use crate::found::Found;
use crate::header::{HEADER_LEN, behind_header, seed_of};
use crate::next::{Next, next_record};
use crate::read_error::ReadError;
use doc_page_parts::bytes::Bytes;
use doc_page_parts::failure::Memory;
use doc_page_parts::heap::{Heap, Vec};
use doc_page_parts::list::List;
use memchr::memchr;

/// Reads a journal. What is torn behind its closed gate is passed over. All else that isn't whole is damage.
pub fn read(heap: Heap, bytes: &[u8]) -> Result<Found, ReadError>
    ensures found { IfOk result (λ found. IsFound bytes.now found) }
    ensures refused { IfErr result (λ e. IsWhy bytes.now e) }
{
    let Some((header, behind)) = behind_header(bytes) else {
        return Err(no_journal(heap, bytes));
    };
    let records = records_of(heap, seed_of(header), behind)?;
    if !is_end(records.rest) {
        return Err(ReadError::Damaged(records.texts.get().len() + 1));
    }
    Ok(Found {
        texts: records.texts,
        end: bytes.len() - records.rest.len(),
        last: records.last,
        digest: records.digest,
    })
}

/// Why bytes without a header aren't read.
fn no_journal(heap: Heap, bytes: &[u8]) -> ReadError
    requires { IsNoJournal bytes.now }
    ensures { IsWhy bytes.now result }
{
    match read_first(heap, bytes) {
        Ok(Some(_)) => ReadError::First,
        Ok(None) => ReadError::NoJournal,
        Err(_) => ReadError::Memory,
    }
}

/// The whole records behind a header.
#[derive(Drop)]
struct Records<'a> {
    texts: List<Bytes>,
    last: usize,
    digest: [u8; 32],
    rest: &'a [u8],
}

fn records_of<'a>(heap: Heap, seed: [u8; 32], bytes: &'a [u8]) -> Result<Records<'a>, Memory>
    ensures records { IfOk result (λ r. AreRead seed bytes.now r.texts r.digest r.rest.now) }
    ensures not_open { IfOk result (λ r. HasNoOpenRecord r.digest r.rest.now) }
    ensures count { IfOk result (λ r. length r.texts ≤ length bytes.now) }
    ensures last { IfOk result (λ r. r.last ≡ last_size r.texts) }
{
    let mut texts = Vec::new(heap);
    let mut last = 0;
    let mut digest = seed;
    let mut rest = bytes;
    'records: while let Next::Whole(front) = next_record(&digest, rest) {
        texts.push(Bytes::copy_of(heap, front.text)?)?;
        last = rest.len() - front.rest.len();
        digest = front.digest;
        rest = front.rest;
    }
    Ok(Records {
        texts: List::new(texts),
        last,
        digest,
        rest,
    })
}

/// Whether the bytes are a closed gate and what may stand behind it.
fn is_end(bytes: &[u8]) -> bool
    ensures yes { result ≡ true → IsEnd bytes.now }
    ensures no { result ≡ false → IsEnd bytes.now → ⊥ }
{
    match bytes {
        [0xf0, behind @ ..] => is_tail(behind),
        _ => false,
    }
}

/// Whether no open gate stands in the bytes.
fn is_tail(bytes: &[u8]) -> bool
    ensures { result ≡ list_all is_shut bytes.now }
{
    memchr(0xff, bytes).is_none()
}
