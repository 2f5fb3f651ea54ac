//! An open journal.

ghost use Rattle.std.specs.Prelude.{◌≡◌, ◌≤◌, ◌+◌, ◌++◌, ◌∷◌, [], List, ℕ, true, length, nat_le, OnOk, OnErr, IfOk, IsErrOf, IfSome};
ghost use Rattle.doc_server_journal_records.specs.Records.{text_limit, IsPlain, digest_behind, time_of};
ghost use Rattle.doc_server_journal_records.specs.Readings.{ReadsAs};
ghost use Rattle.doc_server_journal.specs.Devices.{AreBehind, LeavesOnly};
ghost use Rattle.doc_server_journal.specs.Journals.{IsOpen, IsBeforeOrAfter, record_beside};

use crate::device::Device;
use crate::fault::{AppendError, DeviceFault};
use crate::writing::{grow_and_sync, write_and_sync};
use doc_page_parts::heap::Heap;
use doc_server_journal_records::record::{FOOT_LEN, HEAD_LEN, OPEN_GATE, Record};

/// How many bytes a record takes beside its text: its gate, its head and its foot.
pub const RECORD_BESIDE: usize = HEAD_LEN + FOOT_LEN + 1;

/// A journal of more bytes isn't grown, nor one by more.
const MOST_BYTES: usize = 1 << 60;

/// A journal that is open.
#[derive(Drop)]
pub struct Journal<D: Device> {
    pub device: D,
    /// Where the closed gate stands.
    pub end: usize,
    /// How many bytes stand behind it.
    pub room: usize,
    /// The digest of the last record, or what stands in for it.
    pub digest: [u8; 32],
}

impl<D: Device> Journal<D> {
    /// Adds a record, written so many seconds after 1970 began. At `Ok` it is on the disk, and each crash from then on leaves a journal
    /// that has it.
    pub fn append(&mut self, heap: Heap, seconds: u64, text: &[u8]) -> Result<(), AppendError>
        requires open { (texts : List (List ℕ))
            × IsOpen D.seen D.may_leave D.failed D.stale self.old texts }
        requires within { length text.now ≤ text_limit }
        requires plain { IsPlain text.now }
        requires room { length text.now + record_beside ≤ self.old.room }
        ensures acknowledged { (texts : List (List ℕ))
            → IsOpen D.seen D.may_leave D.failed D.stale self.old texts
            → OnOk result (IsOpen D.seen D.may_leave D.failed D.stale self.new
            (texts ++ text.now ∷ [])) }
        ensures any_moment { (texts : List (List ℕ))
            → IsOpen D.seen D.may_leave D.failed D.stale self.old texts
            → IfSome (D.seen self.old.device) (λ file. LeavesOnly D.moment D.left_since
            self.old.device self.new.device (IsBeforeOrAfter texts text.now)) }
        ensures stale { (texts : List (List ℕ))
            → IsOpen D.seen D.may_leave D.failed D.stale self.old texts
            → AreBehind (D.stale self.new.device) self.old.end }
        ensures memory { IsErrOf result AppendError.Memory → self.new ≡ self.old }
        ensures room { OnOk result
            (self.new.room + (length text.now + record_beside) ≡ self.old.room) }
        ensures time { OnOk result (self.new.digest ≡ digest_behind self.old.digest
            (record { time = time_of seconds; text = text.now })) }
        ensures failed { IsErrOf result AppendError.Failed → D.failed self.new.device ≡ true }
    {
        let record = Record::new(heap, &self.digest, seconds, text)?;
        let bytes = record.bytes.get();
        write_and_sync(&mut self.device, self.end + 1, bytes)?;
        write_and_sync(&mut self.device, self.end, &[OPEN_GATE])?;
        self.end += bytes.len();
        self.room -= bytes.len();
        self.digest = record.digest;
        Ok(())
    }

    /// Sees to it that there is so much room for records, and adds zeros where there is less. `false`: the device has no room for
    /// them; what there is was kept, and may be more than before. At `Ok` they are on the disk.
    pub fn make_room(&mut self, room: usize) -> Result<bool, DeviceFault>
        requires open { (texts : List (List ℕ))
            × IsOpen D.seen D.may_leave D.failed D.stale self.old texts }
        ensures open { (texts : List (List ℕ))
            → IsOpen D.seen D.may_leave D.failed D.stale self.old texts
            → OnOk result (IsOpen D.seen D.may_leave D.failed D.stale self.new texts) }
        ensures room { IfOk result (λ has. has ≡ nat_le room self.new.room) }
        ensures no_less { OnOk result (self.old.room ≤ self.new.room) }
        ensures any_moment { (texts : List (List ℕ))
            → IsOpen D.seen D.may_leave D.failed D.stale self.old texts
            → IfSome (D.seen self.old.device) (λ file. LeavesOnly D.moment D.left_since
            self.old.device self.new.device (λ c. ReadsAs c texts)) }
        ensures stale { (texts : List (List ℕ))
            → IsOpen D.seen D.may_leave D.failed D.stale self.old texts
            → AreBehind (D.stale self.new.device) self.old.end }
        ensures failed { OnErr result (D.failed self.new.device ≡ true) }
    {
        if room <= self.room {
            return Ok(true);
        }
        if self.end > MOST_BYTES || room > MOST_BYTES {
            return Ok(false);
        }
        let added = grow_and_sync(&mut self.device, room - self.room)?;
        self.room += added;
        Ok(room <= self.room)
    }
}
