//! A file as the journal uses it: what it holds, and what a crash may leave of it.

ghost use Rattle.std.specs.Prelude.{◌≡◌, ◌⊎◌, ◌≤◌, ◌<◌, List, ℕ, Bool, false, Option, length, is_err, OnOk, IfOk, IsErrOf, IfSome};
ghost use Rattle.doc_server_journal.specs.Devices.{Writes, Grows, Torn, Grown, Follows, LeavesFile, Elapses, IsFresh, IsOutside, IsPlaceOf, IsSure, is_failed};

use crate::fault::{DeviceFault, LoadError};
use doc_page_parts::bytes::Bytes;
use doc_page_parts::heap::Heap;

/// A file, used until the first call of it that fails. Of a file of the system nothing is known: its bytes are `None`, and no
/// outcome of a crash is named.
pub trait Device {
    /// The bytes of the file, where they are known.
    ghost seen: { Self → Option (List ℕ) };

    /// What a crash at this moment may leave.
    ghost may_leave: { Self → List ℕ → Type 0 };

    /// The moment, as a number that doesn't fall.
    ghost moment: { Self → ℕ };

    /// What a crash at some moment from that one on might have left, during a call or between two.
    ghost left_since: { Self → ℕ → List ℕ → Type 0 };

    /// The places whose bytes no sync will bring to the disk, since one that failed hasn't.
    ghost stale: { Self → ℕ → Type 0 };

    /// Whether a call has failed.
    ghost failed: { Self → Bool };

    /// All bytes of the file, where they are no more than `most`.
    fn read_whole(&mut self, heap: Heap, most: usize) -> Result<Bytes, LoadError>
        requires usable { failed self.old ≡ false }
        ensures bytes { IfOk result (λ bytes. IfSome (seen self.old) (λ file. file ≡ bytes)) }
        ensures most { IfOk result (λ bytes. length bytes ≤ most) }
        ensures long { IsErrOf result LoadError.Long
            → IfSome (seen self.old) (λ file. most < length file) }
        ensures seen { seen self.new ≡ seen self.old }
        ensures crash { (c : List ℕ) → may_leave self.new c → may_leave self.old c }
        ensures stale { (i : ℕ) → stale self.new i → stale self.old i }
        ensures time { Elapses (moment self.old) (moment self.new) (left_since self.old)
            (left_since self.new) (may_leave self.new) }
        ensures cause { failed self.new ≡ is_failed result };

    /// Writes over what is there, and past the end. Until a sync, a crash may leave a part of it.
    fn write_at(&mut self, at: usize, bytes: &[u8]) -> Result<(), DeviceFault>
        requires usable { failed self.old ≡ false }
        requires place { IfSome (seen self.old) (λ file. at ≤ length file) }
        ensures written { OnOk result (Writes (seen self.old) at bytes.now (seen self.new)) }
        ensures crash { Follows (Torn at bytes.now) (may_leave self.old) (may_leave self.new) }
        ensures stale { (i : ℕ) → stale self.new i → stale self.old i }
        ensures fresh { OnOk result ((i : ℕ) → stale self.new i
            → IsOutside at (length bytes.now) i) }
        ensures time { Elapses (moment self.old) (moment self.new) (left_since self.old)
            (left_since self.new) (may_leave self.new) }
        ensures cause { failed self.new ≡ is_err result };

    /// Adds so many zeros behind the end, or fewer where there is no room for more, and answers how many. Until a sync, a crash may
    /// leave a part of them.
    fn grow(&mut self, count: usize) -> Result<usize, DeviceFault>
        requires usable { failed self.old ≡ false }
        ensures most { IfOk result (λ n. n ≤ count) }
        ensures grown { IfOk result (λ n. Grows (seen self.old) n (seen self.new)) }
        ensures crash { Follows (Grown count) (may_leave self.old) (may_leave self.new) }
        ensures stale { (i : ℕ) → stale self.new i → stale self.old i }
        ensures time { Elapses (moment self.old) (moment self.new) (left_since self.old)
            (left_since self.new) (may_leave self.new) }
        ensures cause { failed self.new ≡ is_err result };

    /// After it, a crash leaves the file as it is known, where no place of it is stale. One that fails may make each place stale that
    /// isn't sure to be on the disk: the system may take for written what it couldn't write.
    fn sync(&mut self) -> Result<(), DeviceFault>
        requires usable { failed self.old ≡ false }
        ensures durable { OnOk result (IsFresh (stale self.old)
            → LeavesFile (seen self.old) (may_leave self.new)) }
        ensures seen { seen self.new ≡ seen self.old }
        ensures crash { (c : List ℕ) → may_leave self.new c → may_leave self.old c }
        ensures stale { OnOk result ((i : ℕ) → stale self.new i → stale self.old i) }
        ensures lost { (i : ℕ) → stale self.new i
            → stale self.old i ⊎ (IsSure (seen self.old) (may_leave self.old) i → ⊥) }
        ensures time { Elapses (moment self.old) (moment self.new) (left_since self.old)
            (left_since self.new) (may_leave self.new) }
        ensures cause { failed self.new ≡ is_err result };

    /// This moment is one of those since an earlier one.
    ghost counts_now: { (file : Self) (t : ℕ) (c : List ℕ)
        → t ≤ moment file → may_leave file c → left_since file t c };

    /// A stale place is one of the file.
    ghost stale_within: { (file : Self) (i : ℕ) → stale file i → IsPlaceOf (seen file) i };

    /// Since this moment there is no other.
    ghost only_now: { (file : Self) (c : List ℕ)
        → left_since file (moment file) c → may_leave file c };
}
