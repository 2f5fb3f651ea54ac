//! A journal opened.

ghost use Rattle.std.specs.Prelude.{◌≡◌, ◌≢◌, ◌+◌, ◌-◌, ◌<◌, ◌^◌, List as Seq, ℕ, false, length, OnOk, IfOk, IfErr, IfSome};
ghost use Rattle.doc_server_journal.specs.Journals.{Holds, IsOpen};
ghost use Rattle.doc_server_journal_records.specs.Readings.{ReadsAs, IsFound, last_size};
ghost use Rattle.doc_server_journal.specs.Devices.{AreBehind, IsFresh, LeavesFile, LeavesOnly};
ghost use Rattle.doc_server_journal.specs.Openings.{WasLeftOrReads, IsRefused};

use crate::device::Device;
use crate::fault::OpenFault;
use crate::journal::Journal;
use crate::repair::{end_again, repair};
use crate::torn::{KeepTorn, torn_bytes};
use crate::writing::load;
use doc_page_parts::bytes::Bytes;
use doc_page_parts::heap::Heap;
use doc_page_parts::list::List;
use doc_server_journal_records::found::Found;
use doc_server_journal_records::reading::read;

/// A journal that was opened, and the texts of its records in their order.
#[derive(Drop)]
pub struct Opened<D: Device> {
    pub journal: Journal<D>,
    pub texts: List<Bytes>,
}

/// Why a journal wasn't opened, and its device.
#[derive(Drop)]
pub struct Refused<D: Device> {
    pub fault: OpenFault,
    pub device: D,
}

impl<D: Device> Journal<D> {
    /// Opens the journal of a file, of at most `most` bytes. What was torn behind its closed gate is kept elsewhere, and zeroed. Places of
    /// the file may be stale from the last record's gate on, as after a server that ended at the first sync that failed: they are
    /// written again.
    pub fn open<K: KeepTorn>(
        heap: Heap,
        device: D,
        most: usize,
        keeper: &mut K,
    ) -> Result<Opened<D>, Refused<D>>
        requires usable { D.failed device ≡ false }
        ensures opened { IfOk result (λ o. AreBehind (D.stale device)
            (o.journal.end - last_size o.texts)
            → IsOpen D.seen D.may_leave D.failed D.stale o.journal o.texts) }
        ensures texts { IfOk result (λ o. IfSome (D.seen device) (λ file. ReadsAs file o.texts)) }
        ensures refused { IfErr result (λ r. IsRefused most (D.seen device) (D.seen r.device)
            (D.failed r.device) r.fault) }
        ensures any_moment { IfOk result (λ o. IsFresh (D.stale device) → (texts : Seq (Seq ℕ))
            → IfSome (D.seen device) (λ file. ReadsAs file texts → LeavesOnly D.moment D.left_since
            device o.journal.device (WasLeftOrReads (D.may_leave device) texts))) }
        ensures any_moment_refused { IfErr result (λ r. IsFresh (D.stale device)
            → (texts : Seq (Seq ℕ)) → IfSome (D.seen device)
            (λ file. ReadsAs file texts → LeavesOnly D.moment D.left_since
            device r.device (WasLeftOrReads (D.may_leave device) texts))) }
        ensures untouched { IfErr result (λ r. r.fault ≢ OpenFault.Failed
            → LeavesOnly D.moment D.left_since device r.device (D.may_leave device)) }
    {
        let mut device = device;
        match recover(heap, &mut device, most, keeper) {
            Ok(Recovered { found, room }) => {
                let end = found.end;
                let digest = found.digest;
                Ok(Opened {
                    journal: Journal {
                        device,
                        end,
                        room,
                        digest,
                    },
                    texts: found.texts,
                })
            }
            Err(fault) => Err(Refused { fault, device }),
        }
    }
}

/// What was read of a journal, and how many bytes stand behind its closed gate.
#[derive(Drop)]
struct Recovered {
    found: Found,
    room: usize,
}

/// Reads a journal, and writes its end again.
fn recover<D: Device, K: KeepTorn>(
    heap: Heap,
    device: &mut D,
    most: usize,
    keeper: &mut K,
) -> Result<Recovered, OpenFault>
    requires usable { D.failed device.old ≡ false }
    ensures found { IfOk result (λ r. (bytes : Seq ℕ) × (is : IsFound bytes r.found)
        × IfSome (D.seen device.old) (λ file. file ≡ bytes)
        × IfSome (D.seen device.new) (λ file. Holds is.identity is.entries file)) }
    ensures room { IfOk result (λ r. IfSome (D.seen device.new)
        (λ file. length file ≡ r.found.end + 1 + r.room)) }
    ensures fits { IfOk result (λ r. r.found.end + 1 + r.room < 2 ^ 63) }
    ensures durable { IfOk result (λ r. AreBehind (D.stale device.old)
        (r.found.end - r.found.last)
        → LeavesFile (D.seen device.new) (D.may_leave device.new)) }
    ensures fresh { IfOk result (λ r. AreBehind (D.stale device.old)
        (r.found.end - r.found.last) → IsFresh (D.stale device.new)) }
    ensures usable { OnOk result (D.failed device.new ≡ false) }
    ensures refused { IfErr result (λ e. IsRefused most (D.seen device.old) (D.seen device.new)
        (D.failed device.new) e) }
    ensures any_moment { IsFresh (D.stale device.old) → (texts : Seq (Seq ℕ))
        → IfSome (D.seen device.old) (λ file. ReadsAs file texts → LeavesOnly D.moment D.left_since
        device.old device.new (WasLeftOrReads (D.may_leave device.old) texts)) }
    ensures untouched { IfErr result (λ e. e ≢ OpenFault.Failed
        → LeavesOnly D.moment D.left_since device.old device.new (D.may_leave device.old)) }
{
    let loaded = load(device, heap, most)?;
    let bytes = loaded.get();
    let found = read(heap, bytes)?;
    let room = room_behind(bytes, &found);
    let again = end_again(heap, bytes, &found, room)?;
    keep_torn(keeper, &found, torn_bytes(bytes, &found));
    repair(device, bytes, &found, room, again.get())?;
    Ok(Recovered { found, room })
}

/// How many bytes stand behind the closed gate.
fn room_behind(bytes: &[u8], found: &Found) -> usize
    requires { IsFound bytes.now found.now }
    ensures room { length bytes.now ≡ found.now.end + 1 + result }
    ensures fits { found.now.end + 1 + result < 2 ^ 63 }
{
    bytes.len() - (found.end + 1)
}

/// Keeps what was torn, where something was.
fn keep_torn<K: KeepTorn>(keeper: &mut K, found: &Found, torn: &[u8]) {
    if !torn.is_empty() {
        keeper.keep(found.texts.get().len(), torn);
    }
}
