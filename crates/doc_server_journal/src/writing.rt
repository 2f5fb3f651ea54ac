//! A reading of a file, a sync, and a change with its sync.

ghost use Rattle.std.specs.Prelude.{◌≡◌, ◌⊎◌, ◌≤◌, ◌<◌, ◌+◌, List, ℕ, false, length, is_err, OnOk, IfOk, IsErrOf, IfSome};
ghost use Rattle.doc_server_journal.specs.Devices.{Writes, Grows, Torn, Grown, LeavesFile, LeavesOnly, Stepped, IsFresh, IsOutside, IsPastEnd, is_failed};

use crate::device::Device;
use crate::fault::{DeviceFault, LoadError};
use doc_page_parts::bytes::Bytes;
use doc_page_parts::heap::Heap;

/// Reads all bytes, `most` at most.
pub fn load<D: Device>(device: &mut D, heap: Heap, most: usize) -> Result<Bytes, LoadError>
    requires usable { D.failed device.old ≡ false }
    ensures bytes { IfOk result (λ bytes. IfSome (D.seen device.old) (λ file. file ≡ bytes)) }
    ensures most { IfOk result (λ bytes. length bytes ≤ most) }
    ensures long { IsErrOf result LoadError.Long
        → IfSome (D.seen device.old) (λ file. most < length file) }
    ensures seen { D.seen device.new ≡ D.seen device.old }
    ensures crash { (c : List ℕ) → D.may_leave device.new c → D.may_leave device.old c }
    ensures stale { (i : ℕ) → D.stale device.new i → D.stale device.old i }
    ensures any_moment { LeavesOnly D.moment D.left_since device.old device.new
        (D.may_leave device.old) }
    ensures cause { D.failed device.new ≡ is_failed result }
{
    device.read_whole(heap, most)
}

/// Syncs.
pub fn sync<D: Device>(device: &mut D) -> Result<(), DeviceFault>
    requires usable { D.failed device.old ≡ false }
    ensures seen { D.seen device.new ≡ D.seen device.old }
    ensures durable { OnOk result (IsFresh (D.stale device.old)
        → LeavesFile (D.seen device.new) (D.may_leave device.new)) }
    ensures stale { OnOk result ((i : ℕ) → D.stale device.new i → D.stale device.old i) }
    ensures any_moment { LeavesOnly D.moment D.left_since device.old device.new
        (D.may_leave device.old) }
    ensures cause { D.failed device.new ≡ is_err result }
{
    device.sync()
}

/// Writes bytes and syncs.
pub fn write_and_sync<D: Device>(device: &mut D, at: usize, bytes: &[u8]) -> Result<(), DeviceFault>
    requires usable { D.failed device.old ≡ false }
    requires place { IfSome (D.seen device.old) (λ file. at ≤ length file) }
    ensures written { OnOk result (Writes (D.seen device.old) at bytes.now (D.seen device.new)) }
    ensures durable { OnOk result (((i : ℕ) → D.stale device.old i
        → IsOutside at (length bytes.now) i → ⊥)
        → LeavesFile (D.seen device.new) (D.may_leave device.new)) }
    ensures stale { OnOk result ((i : ℕ) → D.stale device.new i
        → D.stale device.old i × IsOutside at (length bytes.now) i) }
    ensures lost { LeavesFile (D.seen device.old) (D.may_leave device.old) → (i : ℕ)
        → D.stale device.new i → D.stale device.old i ⊎ (at ≤ i) }
    ensures any_moment { LeavesOnly D.moment D.left_since device.old device.new
        (Stepped (Torn at bytes.now) (D.may_leave device.old)) }
    ensures cause { D.failed device.new ≡ is_err result }
{
    device.write_at(at, bytes)?;
    device.sync()
}

/// Adds zeros behind the end, as many as there is room for, and syncs.
pub fn grow_and_sync<D: Device>(device: &mut D, count: usize) -> Result<usize, DeviceFault>
    requires usable { D.failed device.old ≡ false }
    ensures most { IfOk result (λ n. n ≤ count) }
    ensures grown { IfOk result (λ n. Grows (D.seen device.old) n (D.seen device.new)) }
    ensures durable { OnOk result (IsFresh (D.stale device.old)
        → LeavesFile (D.seen device.new) (D.may_leave device.new)) }
    ensures stale { OnOk result ((i : ℕ) → D.stale device.new i → D.stale device.old i) }
    ensures lost { LeavesFile (D.seen device.old) (D.may_leave device.old) → (i : ℕ)
        → D.stale device.new i → D.stale device.old i ⊎ IsPastEnd (D.seen device.old) i }
    ensures any_moment { LeavesOnly D.moment D.left_since device.old device.new
        (Stepped (Grown count) (D.may_leave device.old)) }
    ensures cause { D.failed device.new ≡ is_err result }
{
    let added = device.grow(count)?;
    device.sync()?;
    Ok(added)
}
