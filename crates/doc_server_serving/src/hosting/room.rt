//! The room of a journal before anybody is served.

ghost use Rattle.std.specs.Prelude.{◌≡◌, List, ℕ, nat_le, IfErr, OnOk};
ghost use Rattle.doc_hub.specs.Worlds.{world_taking};
ghost use Rattle.doc_server_journal.specs.Journals.{IsOpen};
ghost use Rattle.doc_server_serving.specs.Hostings.{TakesPuts};
ghost use Rattle.doc_server_serving.specs.Unready.{IsUnready};
ghost use Rattle.doc_server_settling.specs.Reserves.{HasRoomToRemove, reserve, takes_removals};

use crate::fault::ServeFault;
use crate::hosting::fault::HostingFault;
use crate::named_file::NamedFile;
use doc_hub::hub::Hub;
use doc_page::renderer::Renderer;
use doc_server_journal::device::Device;
use doc_server_journal::journal::Journal;
use doc_server_settling::reserve::{RESERVE, SPARE, has_room_to_remove, keep_reserve};

/// Sees to it that a journal has its reserve, so that turns have room. Where the disk doesn't give it the hub takes no puts, which is told; and
/// where it doesn't give room for the removal of each page either, nobody is served.
pub fn make_room<D: Device + NamedFile, R: Renderer + Drop, F: Drop>(
    journal: &mut Journal<D>,
    hub: &mut Hub<R>,
) -> Result<(), HostingFault<F>>
    requires open { (texts : List (List ℕ))
        × IsOpen D.seen D.may_leave D.failed D.stale journal.old texts }
    ensures kept { (texts : List (List ℕ))
        → IsOpen D.seen D.may_leave D.failed D.stale journal.old texts
        → OnOk result (IsOpen D.seen D.may_leave D.failed D.stale journal.new texts) }
    ensures room { OnOk result (HasRoomToRemove journal.new.room hub.new.1) }
    ensures why { IfErr result (λ fault. IsUnready fault (takes_removals journal.new.room hub.new.1)
        (D.failed journal.new.device)) }
    ensures taken { OnOk result (TakesPuts hub.old.1 hub.new.1) }
    ensures takes { OnOk result (hub.new.1 ≡ world_taking hub.old.1
        (nat_le reserve journal.new.room)) }
    ensures same { R.page hub.new.0 ≡ R.page hub.old.0 }
{
    if let Err(fault) = keep_reserve(journal, hub, RESERVE + SPARE) {
        return Err(HostingFault::Serve(ServeFault::from(fault)));
    }
    if !hub.takes_puts() {
        journal.device.tell_room(false);
    }
    if !has_room_to_remove(journal, hub) {
        return Err(HostingFault::NoRoom);
    }
    Ok(())
}
