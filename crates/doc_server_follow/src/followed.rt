//! How far a journal was taken that another server writes.

ghost use Rattle.std.specs.Prelude.{◌≡◌, ◌≤◌, ◌<◌, ◌++◌, List as Seq, ℕ, length, take, IfOk, IfErr, IfSome, IsNone, OnErr};
ghost use Rattle.doc_server_journal_records.specs.Readings.{IsWhy};
ghost use Rattle.doc_server_follow.specs.Sights.{beyond};
ghost use Rattle.doc_server_follow.specs.Follows.{GoesOn, IsBegun, LooksAs, mark_of};

use crate::growing::Growing;
use crate::growing_fault::GrowingFault;
use crate::looked::Looked;
use crate::sight::{Sight, look_behind};
use crate::taken::Taken;
use doc_page_parts::bytes::Bytes;
use doc_page_parts::heap::Heap;
use doc_page_parts::list::List;
use doc_server_journal_records::header::HEADER_LEN;
use doc_server_journal_records::read_error::ReadError;
use doc_server_journal_records::reading::read;
use doc_server_journal_records::record::{FOOT_LEN, foot_of};

/// How far a journal was taken that another server writes.
#[derive(Clone, Copy, Drop)]
pub struct Followed {
    /// The journal's header.
    header: [u8; 55],
    /// Where the next record's gate stands.
    end: usize,
    records: usize,
    /// The digest of the last record, or what stands in for it.
    digest: [u8; 32],
}

/// A journal that is followed from now on, and the texts of its records in their order.
#[derive(Drop)]
pub struct Begun {
    pub followed: Followed,
    pub texts: List<Bytes>,
}

/// Takes all that stands in a journal.
pub fn begin(heap: Heap, bytes: &[u8]) -> Result<Begun, ReadError>
    ensures begun { IfOk result (λ begun. IsBegun bytes.now begun) }
    ensures refused { IfErr result (λ e. IsWhy bytes.now e) }
{
    let found = read(heap, bytes)?;
    let followed = Followed {
        header: header_of(bytes),
        end: found.end,
        records: found.texts.get().len(),
        digest: found.digest,
    };
    Ok(Begun {
        followed,
        texts: found.texts,
    })
}

/// The header that a journal begins with.
fn header_of(bytes: &[u8]) -> [u8; 55]
    requires { 55 ≤ length bytes.now }
    ensures { result ≡ take 55 bytes.now }
{
    let mut header = [0; HEADER_LEN];
    header.copy_from_slice(&bytes[..HEADER_LEN]);
    header
}

impl Followed {
    /// The journal's header.
    pub fn header(&self) -> &[u8]
        ensures { result.now ≡ self.now.header }
    {
        self.header.as_slice()
    }

    /// How many records were taken.
    pub fn records(&self) -> usize
        ensures { result ≡ self.now.records }
    {
        self.records
    }

    /// How many bytes were taken: the gate of the next record stands behind them.
    pub fn end(&self) -> usize
        ensures { result ≡ self.now.end }
    {
        self.end
    }

    /// The digest of the last record, or what stands in for it.
    pub(crate) fn digest(&self) -> [u8; 32]
        ensures { result ≡ self.now.digest }
    {
        self.digest
    }

    /// How many bytes the mark has.
    pub(crate) fn mark_len(&self) -> usize
        ensures value { result ≡ length (mark_of self.now) }
        ensures some { 0 < result }
        ensures few { result ≤ 65 }
    {
        if self.records == 0 {
            return HEADER_LEN;
        }
        FOOT_LEN
    }

    /// What stands behind the mark in bytes that begin with it.
    pub(crate) fn behind_mark<'a>(&self, bytes: &'a [u8]) -> Option<&'a [u8]>
        ensures found { IfSome result (λ rest. bytes.now ≡ mark_of self.now ++ rest.now) }
        ensures none { IsNone result → (rest : Seq ℕ) → bytes.now ≡ mark_of self.now ++ rest → ⊥ }
    {
        if self.records == 0 {
            return bytes.strip_prefix(self.header.as_slice());
        }
        bytes.strip_prefix(foot_of(&self.digest).as_slice())
    }

    /// The same behind the records that were taken, where numbers of this machine say so.
    pub(crate) fn moved(&self, taken: &Taken) -> Option<Followed>
        ensures { IfSome result (λ followed. followed ≡ beyond self.now taken.now) }
    {
        let end = self.end.checked_add(taken.len)?;
        let records = self.records.checked_add(taken.texts.get().len())?;
        Some(Followed {
            header: self.header,
            end,
            records,
            digest: taken.digest,
        })
    }

    /// Looks at the journal, and takes the records that are new: those of about 64 KiB, or one that is longer. Where nothing is new, it
    /// reads a record's foot and a gate. Each reading is of one moment, and what is told is told of the last one alone.
    pub fn look<F: Growing>(&mut self, heap: Heap, file: &mut F) -> Result<Looked, GrowingFault>
        ensures looked { IfOk result (λ looked. IfSome (F.seen file.old)
            (λ bytes. LooksAs bytes self.old self.new looked)) }
        ensures goes_on { IfOk result (λ looked. GoesOn self.old self.new looked) }
        ensures fault { OnErr result (self.new ≡ self.old) }
        ensures seen { F.seen file.new ≡ F.seen file.old }
    {
        match look_behind(heap, self, file)? {
            Sight::Back => Ok(Looked::WentBack),
            Sight::Rests => Ok(Looked::Rests),
            Sight::Short => Ok(Looked::Rests),
            Sight::Damaged => Ok(Looked::Damaged),
            Sight::More(texts, followed) => {
                *self = followed;
                Ok(Looked::More(texts))
            }
        }
    }
}
