//! The texts of an open journal, read anew.

ghost use Rattle.std.specs.Prelude.{◌≡◌, ◌<◌, List as Seq, ℕ, None, false, length, IfOk, IsErrOf, IfSome};
ghost use Rattle.doc_server_journal.specs.Devices.{LeavesOnly};
ghost use Rattle.doc_server_journal.specs.Journals.{IsOpen};
ghost use Rattle.doc_server_reload.specs.Texts.{has_failed, moved_to};

use doc_page_parts::bytes::Bytes;
use doc_page_parts::failure::Memory;
use doc_page_parts::heap::Heap;
use doc_page_parts::list::List;
use doc_server_journal::device::Device;
use doc_server_journal::fault::LoadError;
use doc_server_journal::journal::Journal;
use doc_server_journal::writing::load;
use doc_server_journal_records::found::Found;
use doc_server_journal_records::read_error::ReadError;
use doc_server_journal_records::reading::read;
use thiserror::Error;

/// Why the texts of an open journal aren't read.
#[derive(Clone, Copy, Debug, Error)]
pub enum TextsFault {
    /// The file has more bytes than were asked for at most.
    #[error("journal too long")]
    Long,
    /// The file isn't the journal's: it doesn't read as a journal, or as one that ends elsewhere, or with another record.
    #[error("not the open journal")]
    Other,
    /// No memory was left.
    #[error("{}", Memory)]
    Memory,
    /// The device failed. The journal has to be opened again.
    #[error("cannot use journal")]
    Failed,
}

impl From<LoadError> for TextsFault {
    ghost use Rattle.std.specs.Prelude.{◌≡◌};
    ghost use Rattle.doc_server_reload.specs.Texts.{of_load};

    ghost from_gives = { λ e fault. fault ≡ of_load e };

    fn from(e: LoadError) -> TextsFault {
        match e {
            LoadError::Memory => TextsFault::Memory,
            LoadError::Long => TextsFault::Long,
            LoadError::Failed => TextsFault::Failed,
        }
    }
}

impl From<ReadError> for TextsFault {
    ghost use Rattle.std.specs.Prelude.{◌≡◌};
    ghost use Rattle.doc_server_reload.specs.Texts.{of_reading};

    ghost from_gives = { λ e fault. fault ≡ of_reading e };

    fn from(e: ReadError) -> TextsFault {
        match e {
            ReadError::NoJournal => TextsFault::Other,
            ReadError::First => TextsFault::Other,
            ReadError::Damaged(_) => TextsFault::Other,
            ReadError::Memory => TextsFault::Memory,
        }
    }
}

/// The texts of the records of an open journal, read from its file, of at most `most` bytes. Nothing is written, and the journal stays open
/// unless its device fails. It is open with just these texts, as far as what was read ends where the journal does, and its last record has
/// the journal's digest; where the file is known they are the texts that it was open with.
pub fn texts_of_journal<D: Device>(
    heap: Heap,
    journal: &mut Journal<D>,
    most: usize,
) -> Result<List<Bytes>, TextsFault>
    requires open { (texts : Seq (Seq ℕ))
        × IsOpen D.seen D.may_leave D.failed D.stale journal.old texts }
    ensures read { IfOk result (λ texts.
        IsOpen D.seen D.may_leave D.failed D.stale journal.new texts) }
    ensures known { IfOk result (λ texts. (others : Seq (Seq ℕ))
        → IsOpen D.seen D.may_leave D.failed D.stale journal.old others
        → IfSome (D.seen journal.old.device) (λ file. texts ≡ others)) }
    ensures open { (texts : Seq (Seq ℕ))
        → IsOpen D.seen D.may_leave D.failed D.stale journal.old texts
        → D.failed journal.new.device ≡ false
        → IsOpen D.seen D.may_leave D.failed D.stale journal.new texts }
    ensures same { journal.new ≡ moved_to journal.old journal.new.device }
    ensures file { D.seen journal.new.device ≡ D.seen journal.old.device }
    ensures crash { (c : Seq ℕ) → D.may_leave journal.new.device c
        → D.may_leave journal.old.device c }
    ensures stale { (i : ℕ) → D.stale journal.new.device i → D.stale journal.old.device i }
    ensures any_moment { LeavesOnly D.moment D.left_since journal.old.device journal.new.device
        (D.may_leave journal.old.device) }
    ensures long { IsErrOf result TextsFault.Long
        → IfSome (D.seen journal.old.device) (λ file. most < length file) }
    ensures other { IsErrOf result TextsFault.Other → D.seen journal.old.device ≡ None }
    ensures failed { D.failed journal.new.device ≡ has_failed result }
{
    let loaded = load(&mut journal.device, heap, most)?;
    let found = read(heap, loaded.get())?;
    if found.end != journal.end {
        return Err(TextsFault::Other);
    }
    if found.digest != journal.digest {
        return Err(TextsFault::Other);
    }
    Ok(found.texts)
}
