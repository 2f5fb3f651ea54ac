//! A journal begun.

ghost use Rattle.std.specs.Prelude.{◌≡◌, ◌++◌, ◌∷◌, [], false, IfOk, IfSome, OnOk};
ghost use Rattle.doc_server_journal_records.specs.Records.{closed_gate};
ghost use Rattle.doc_server_journal.specs.Devices.{IsFresh, LeavesFile};
ghost use Rattle.doc_server_journal.specs.Journals.{IsOpen};

use crate::device::Device;
use crate::fault::OpenFault;
use crate::journal::Journal;
use crate::opening::Refused;
use crate::writing::{load, write_and_sync};
use doc_page_parts::heap::Heap;
use doc_server_journal_records::header::{HEADER_LEN, Identity, seed_of};
use doc_server_journal_records::record::CLOSED_GATE;

impl<D: Device> Journal<D> {
    /// A journal without records, of a file that is empty. What a crash leaves of the file no clause says: it gets the journal's name
    /// afterwards.
    pub fn make(heap: Heap, device: D, identity: &Identity) -> Result<Journal<D>, Refused<D>>
        requires usable { D.failed device ≡ false }
        ensures { IfOk result (λ journal.
            IsOpen D.seen D.may_leave D.failed D.stale journal []) }
    {
        let mut device = device;
        let header = identity.header();
        match begin(heap, &mut device, &header) {
            Ok(()) => Ok(Journal {
                device,
                end: HEADER_LEN,
                room: 0,
                digest: seed_of(&header),
            }),
            Err(fault) => Err(Refused { fault, device }),
        }
    }
}

/// Writes a header and the closed gate into an empty file.
fn begin<D: Device>(heap: Heap, device: &mut D, header: &[u8; 55]) -> Result<(), OpenFault>
    requires usable { D.failed device.old ≡ false }
    ensures file { OnOk result (IfSome (D.seen device.new)
        (λ file. file ≡ header.now ++ closed_gate ∷ [])) }
    ensures durable { OnOk result (LeavesFile (D.seen device.new) (D.may_leave device.new)) }
    ensures fresh { OnOk result (IsFresh (D.stale device.new)) }
    ensures usable { OnOk result (D.failed device.new ≡ false) }
{
    let _empty = load(device, heap, 0)?;
    let mut bytes = [CLOSED_GATE; HEADER_LEN + 1];
    bytes[..HEADER_LEN].copy_from_slice(header.as_slice());
    write_and_sync(device, 0, &bytes)?;
    Ok(())
}
