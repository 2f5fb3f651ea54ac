//! The whole records at the front of bytes.

ghost use Rattle.std.specs.Prelude.{◌≡◌, IfOk};
ghost use Rattle.doc_server_follow.specs.Sights.{IsTaken};

use doc_page_parts::bytes::Bytes;
use doc_page_parts::failure::Memory;
use doc_page_parts::heap::{Heap, Vec};
use doc_page_parts::list::List;
use doc_server_journal_records::next::{Next, next_record};

/// The whole records at the front of bytes.
#[derive(Drop)]
pub struct Taken {
    pub texts: List<Bytes>,
    /// The digest of the last of them, or of the record before.
    pub digest: [u8; 32],
    /// How many bytes they take.
    pub len: usize,
    /// Whether what stands behind them may become a record as the file grows.
    pub is_short: bool,
}

/// Takes the whole records at the front of bytes, behind a record of that digest.
pub fn taken_from(heap: Heap, before: [u8; 32], bytes: &[u8]) -> Result<Taken, Memory>
    ensures { IfOk result (λ taken. IsTaken before bytes.now taken) }
{
    let mut texts = Vec::new(heap);
    let mut digest = before;
    let mut rest = bytes;
    let mut next = next_record(&digest, rest);
    'records: while let Next::Whole(front) = next {
        texts.push(Bytes::copy_of(heap, front.text)?)?;
        digest = front.digest;
        rest = front.rest;
        next = next_record(&digest, rest);
    }
    Ok(Taken {
        texts: List::new(texts),
        digest,
        len: bytes.len() - rest.len(),
        is_short: matches!(next, Next::NotYet),
    })
}
