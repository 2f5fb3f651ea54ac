//! The room that a journal keeps for records to come.

ghost use Rattle.std.specs.Prelude.{◌≡◌, ◌≤◌, ◌+◌, ◌*◌, List, ℕ, true, nat_le, IfErr, IfOk, IfSome, OnErr, OnOk};
ghost use Rattle.doc_hub.specs.Runs.{Happens};
ghost use Rattle.doc_hub_events.specs.declared.event.Event.TheVariants as events;
ghost use Rattle.doc_server_journal.specs.Devices.{AreBehind, LeavesOnly};
ghost use Rattle.doc_server_journal.specs.Journals.{IsOpen};
ghost use Rattle.doc_server_journal_records.specs.Readings.{ReadsAs};
ghost use Rattle.doc_store.specs.Store.{page_limit};
ghost use Rattle.doc_server_settling.specs.Reserves.{HasRoomFor, HasRoomToRemove, grown_room, removal_most, reserve, takes_removals, takes_removals_of};

use crate::fault::TurnFault;
use doc_hub::hub::Hub;
use doc_page::renderer::Renderer;
use doc_server_journal::device::Device;
use doc_server_journal::journal::{Journal, RECORD_BESIDE};

/// How much room a journal keeps while puts are taken: for the largest record of a turn, and for a record with the removal of each page.
pub const RESERVE: usize = 8 * 1_048_576 + 128 + 10_000 * 1_024;

/// How much it keeps beyond that, so that a turn seldom waits for more.
pub const SPARE: usize = 4 * 1_048_576;

/// How many pages may stand.
const PAGE_LIMIT: usize = 10_000;

/// How many bytes a record with one removal takes at most.
const REMOVAL_MOST: usize = 808 + RECORD_BESIDE;

/// Whether a journal has room for all that may come while no puts are taken: for the removal of each page, and for one record more. A
/// journal that has lost the zeros behind its records lacks it where the disk is full, and isn't served: its turns would have no room.
pub fn has_room_to_remove<D: Device, R: Renderer + Drop>(journal: &Journal<D>, hub: &Hub<R>) -> bool
    ensures exact { result ≡ takes_removals journal.now.room hub.now.1 }
    ensures enough { result ≡ true → HasRoomToRemove journal.now.room hub.now.1 }
{
    has_room_for_removals(journal.room, hub.len())
}

/// The same of so much room, and of so many pages.
#[tactic(auto, unfolding(doc_store::specs::Store::page_limit, doc_server_listen::specs::Edits::longest_removal, doc_server_script::specs::LineLengths::path_limit))]
pub fn has_room_for_removals(room: usize, pages: usize) -> bool
    ensures exact { result ≡ takes_removals_of room pages }
    ensures enough { result ≡ true
        → (pages ≤ page_limit) × ((pages + 1) * removal_most ≤ room) }
{
    pages <= PAGE_LIMIT && (pages + 1) * REMOVAL_MOST <= room
}

/// Sees to it that a journal keeps its reserve and the spare room, by so many more bytes at most, and has the hub take puts while it keeps
/// the reserve. `false`: the device has no room for so many. Between turns a server calls it, so that no turn lacks room. After an `Err`
/// the server ends.
#[tactic(auto, unfolding(crate::specs::Reserves::reserve, crate::specs::Reserves::spare))]
pub fn keep_reserve<D: Device, R: Renderer + Drop>(
    journal: &mut Journal<D>,
    hub: &mut Hub<R>,
    growth: usize,
) -> Result<bool, TurnFault>
    requires open { (texts : List (List ℕ))
        × IsOpen D.seen D.may_leave D.failed D.stale journal.old texts }
    ensures open { OnOk result ((texts : List (List ℕ))
        × IsOpen D.seen D.may_leave D.failed D.stale journal.new texts) }
    ensures kept { (texts : List (List ℕ))
        → IsOpen D.seen D.may_leave D.failed D.stale journal.old texts
        → OnOk result (IsOpen D.seen D.may_leave D.failed D.stale journal.new texts) }
    ensures any_moment { (texts : List (List ℕ))
        → IsOpen D.seen D.may_leave D.failed D.stale journal.old texts
        → IfSome (D.seen journal.old.device) (λ file. LeavesOnly D.moment D.left_since
        journal.old.device journal.new.device (λ c. ReadsAs c texts)) }
    ensures stale { (texts : List (List ℕ))
        → IsOpen D.seen D.may_leave D.failed D.stale journal.old texts
        → AreBehind (D.stale journal.new.device) journal.old.end }
    ensures no_less { OnOk result (journal.old.room ≤ journal.new.room) }
    ensures grows { IfOk result
        (λ grown. grown ≡ nat_le (grown_room journal.old.room growth) journal.new.room) }
    ensures taken { OnOk result (Happens (R.page hub.old.0) hub.old.1
        (events.TakePuts (nat_le reserve journal.new.room)) hub.new.1 tt) }
    ensures failed { OnErr result (D.failed journal.new.device ≡ true) }
    ensures cannot_write { IfErr result (λ e. e ≡ TurnFault.CannotWrite) }
    ensures rests { OnErr result (hub.new.1 ≡ hub.old.1) }
    ensures same { R.page hub.new.0 ≡ R.page hub.old.0 }
    ensures enough { HasRoomToRemove journal.old.room hub.old.1
        → OnOk result (HasRoomFor journal.new.room hub.new.1) }
{
    let target = journal.room.saturating_add(growth).min(RESERVE + SPARE);
    let grown = journal.make_room(target)?;
    hub.take_puts(journal.room >= RESERVE);
    Ok(grown)
}
