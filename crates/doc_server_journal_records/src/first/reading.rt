//! What the bytes of a journal of the first form say.

ghost use Rattle.std.specs.Prelude.{◌≡◌, ◌≤◌, List as Seq, ℕ, length, true, false, MatchOption, IfOk};
ghost use Rattle.doc_server_journal_records.specs.FirstRecords.{seed, last_digest};
ghost use Rattle.doc_server_journal_records.specs.FirstReadings.{AreRecords, HasNoOpenRecord, IsBegun, IsFirst};

use crate::first::front::{is_end, open_record};
use crate::first::record::seed;
use doc_page_parts::bytes::Bytes;
use doc_page_parts::failure::Memory;
use doc_page_parts::heap::{Heap, Vec};
use doc_page_parts::list::List;

/// The texts of the records of a journal, where the bytes are one of the first form. A torn last record is passed over, but not a
/// torn only one: a journal without records is a gate alone.
pub fn read(heap: Heap, bytes: &[u8]) -> Result<Option<List<Bytes>>, Memory>
    ensures { IfOk result (λ found. MatchOption found
        ((texts : Seq (Seq ℕ)) → IsFirst bytes.now texts → ⊥) (λ texts. IsFirst bytes.now texts)) }
{
    if !is_begun(bytes) {
        return Ok(None);
    }
    if bytes.len() == 1 {
        return Ok(Some(List::new(Vec::new(heap))));
    }
    let records = records_of(heap, bytes)?;
    if records.texts.get().is_empty() {
        return Ok(None);
    }
    if !is_end(&records.digest, records.rest) {
        return Ok(None);
    }
    Ok(Some(records.texts))
}

/// Whether a gate stands in front.
fn is_begun(bytes: &[u8]) -> bool
    ensures yes { result ≡ true → IsBegun bytes.now }
    ensures no { result ≡ false → IsBegun bytes.now → ⊥ }
{
    matches!(bytes, [0 | 1, ..])
}

/// The whole records at the front of a journal.
#[derive(Drop)]
struct Records<'a> {
    texts: List<Bytes>,
    digest: [u8; 32],
    rest: &'a [u8],
}

fn records_of<'a>(heap: Heap, bytes: &'a [u8]) -> Result<Records<'a>, Memory>
    ensures records { IfOk result (λ r. AreRecords bytes.now r.texts r.rest.now) }
    ensures digest { IfOk result (λ r. r.digest ≡ last_digest seed r.texts) }
    ensures last { IfOk result (λ r. HasNoOpenRecord r.digest r.rest.now) }
{
    let mut texts = Vec::new(heap);
    let mut digest = seed();
    let mut rest = bytes;
    'records: while let Some(front) = open_record(&digest, rest) {
        texts.push(Bytes::copy_of(heap, front.text)?)?;
        digest = front.digest;
        rest = front.rest;
    }
    Ok(Records {
        texts: List::new(texts),
        digest,
        rest,
    })
}
