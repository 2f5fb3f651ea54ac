//! The end of a journal, written again.

ghost use Rattle.std.specs.Prelude.{◌≡◌, ◌+◌, ◌-◌, ◌++◌, false, is_err, length, take, drop, replicate, IfOk, OnOk, IfSome};
ghost use Rattle.doc_server_journal_records.specs.Readings.{IsFound};
ghost use Rattle.doc_server_journal.specs.Devices.{AreBehind, IsFresh, LeavesFile, LeavesOnly};
ghost use Rattle.doc_server_journal.specs.Journals.{Holds};
ghost use Rattle.doc_server_journal.specs.Openings.{IsEndAgain, WasLeftOrReads};

use crate::device::Device;
use crate::fault::DeviceFault;
use crate::writing::{sync, write_and_sync};
use doc_page_parts::bytes::Bytes;
use doc_page_parts::failure::Memory;
use doc_page_parts::heap::{Heap, Vec};
use doc_server_journal_records::found::Found;

/// What is written again: the last record with its gate, as they were read, the closed gate, and zeros over all that stands behind it.
pub fn end_again(heap: Heap, bytes: &[u8], found: &Found, room: usize) -> Result<Bytes, Memory>
    requires found { IsFound bytes.now found.now }
    requires room { length bytes.now ≡ found.now.end + 1 + room }
    ensures { IfOk result (λ again. IsEndAgain bytes.now found.now room again) }
{
    let mut again = Vec::new(heap);
    again.extend_from_slice(&bytes[found.end - found.last..found.end + 1])?;
    let len = again.len() + room;
    again.resize(len, 0)?;
    Ok(Bytes::new(again))
}

/// Writes the end of a journal again, so that it is on the disk whatever a sync before it was answered, with zeros behind it.
pub fn repair<D: Device>(
    device: &mut D,
    bytes: &[u8],
    found: &Found,
    room: usize,
    again: &[u8],
) -> Result<(), DeviceFault>
    requires usable { D.failed device.old ≡ false }
    requires known { IfSome (D.seen device.old) (λ file. file ≡ bytes.now) }
    requires found { IsFound bytes.now found.now }
    requires room { length bytes.now ≡ found.now.end + 1 + room }
    requires again { IsEndAgain bytes.now found.now room again.now }
    ensures file { (is : IsFound bytes.now found.now) → OnOk result
        (IfSome (D.seen device.new) (λ file. Holds is.identity is.entries file)) }
    ensures length { OnOk result
        (IfSome (D.seen device.new) (λ file. length file ≡ length bytes.now)) }
    ensures durable { OnOk result (AreBehind (D.stale device.old)
        (found.now.end - found.now.last)
        → LeavesFile (D.seen device.new) (D.may_leave device.new)) }
    ensures fresh { OnOk result (AreBehind (D.stale device.old)
        (found.now.end - found.now.last) → IsFresh (D.stale device.new)) }
    ensures any_moment { IsFresh (D.stale device.old)
        → IfSome (D.seen device.old) (λ file. LeavesOnly D.moment D.left_since
        device.old device.new (WasLeftOrReads (D.may_leave device.old) found.now.texts)) }
    ensures cause { D.failed device.new ≡ is_err result }
{
    sync(device)?;
    write_and_sync(device, found.end - found.last, again)
}
