//! The reserve of a new journal.

ghost use Rattle.std.specs.Prelude.{◌≤◌, List, ℕ, OnOk};
ghost use Rattle.doc_server_journal.specs.Journals.{IsOpen};

use crate::fault::CompactingFault;
use doc_server_journal::device::Device;
use doc_server_journal::fault::OpenFault;
use doc_server_journal::journal::Journal;
use doc_server_settling::reserve::{RESERVE, SPARE};

/// Makes the reserve of a new journal.
pub fn make_reserve<D: Device>(journal: &mut Journal<D>) -> Result<(), CompactingFault>
    requires open { (texts : List (List ℕ))
        × IsOpen D.seen D.may_leave D.failed D.stale journal.old texts }
    ensures open { (texts : List (List ℕ))
        → IsOpen D.seen D.may_leave D.failed D.stale journal.old texts
        → OnOk result (IsOpen D.seen D.may_leave D.failed D.stale journal.new texts) }
    ensures reserve { OnOk result (RESERVE ≤ journal.new.room) }
{
    match journal.make_room(RESERVE + SPARE) {
        Ok(_) if journal.room >= RESERVE => Ok(()),
        Ok(_) => Err(CompactingFault::NoRoom),
        Err(_) => Err(CompactingFault::from(OpenFault::Failed)),
    }
}
