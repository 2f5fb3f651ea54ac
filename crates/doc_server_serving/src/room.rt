//! The room of a journal, told to people where puts are refused for want of it.

ghost use Rattle.std.specs.Prelude.{◌≡◌, IfErr, IfOk, OnErr, OnOk};
ghost use Rattle.doc_hub.specs.Worlds.{World};
ghost use Rattle.doc_server_network.specs.Crashes.{CrashesLeave, Restores};
ghost use Rattle.doc_server_network.specs.Saved.{HasFailed, IsAllSaved, IsReady, IsSaved, IsSettled, TakesByRoom, has_grown};
ghost use Rattle.doc_server_turns.specs.QuietRuns.{LeadsQuietly};
ghost use Rattle.doc_server_serving.specs.Rooms.{growth_of};
ghost use Rattle.doc_server_listen.specs.Sites.{IsSameSite};
ghost use Rattle.doc_store.specs.Store.{StoreState};

use crate::named_file::NamedFile;
use doc_page::renderer::Renderer;
use doc_page_parts::heap::Heap;
use doc_server_journal::device::Device;
use doc_server_network::saved_hub::SavedHub;
use doc_server_settling::fault::TurnFault;
use doc_server_settling::reserve::RESERVE;

/// How many bytes a journal grows by at once, and by how many where it lacks its reserve.
const SLICE: usize = 1_048_576;

const SLICES: usize = 8 * SLICE;

/// Sees to the room of the journal, where there is one, by so many more bytes at most. Puts are taken from here on where it keeps its
/// reserve, and where that has changed it is told. `false`: the device has no room for so many.
pub fn keep_room<D: Device + NamedFile, R: Renderer + Drop>(
    heap: Heap,
    saved: &mut SavedHub<D, R>,
    growth: usize,
) -> Result<bool, TurnFault>
    requires ready { IsReady D.seen D.may_leave D.failed D.stale saved.old }
    requires all { IsAllSaved saved.old }
    ensures ready { OnOk result (IsReady D.seen D.may_leave D.failed D.stale saved.new) }
    ensures all { OnOk result (IsAllSaved saved.new) }
    ensures settled { (config : StoreState)
        → IsSettled D.seen D.may_leave D.failed D.stale config saved.old
        → OnOk result (IsSettled D.seen D.may_leave D.failed D.stale config saved.new) }
    ensures any_moment { (config : StoreState) (begin : World)
        → IsSaved D.seen D.may_leave D.failed D.stale config begin saved.old
        → CrashesLeave D.seen D.moment D.left_since
        (Restores config begin) saved.old.journal saved.new.journal }
    ensures site { IsSameSite saved.old.hub.1 saved.new.hub.1 }
    ensures taken { OnOk result (TakesByRoom (R.page saved.old.hub.0) saved.new.journal
        saved.old.hub.1 saved.new.hub.1) }
    ensures grows { IfOk result
        (λ grown. grown ≡ has_grown growth saved.old.journal saved.new.journal) }
    ensures failed { OnErr result (HasFailed D.failed saved.new.journal) }
    ensures cannot_write { IfErr result (λ e. e ≡ TurnFault.CannotWrite) }
    ensures quiet { LeadsQuietly (R.page saved.old.hub.0) saved.old.hub.1 saved.new.hub.1 }
    ensures same { R.page saved.new.hub.0 ≡ R.page saved.old.hub.0 }
{
    let took = saved.takes_puts();
    let grown = saved.keep_reserve(heap, growth)?;
    let takes = saved.takes_puts();
    if takes == took {
        return Ok(grown);
    }
    if let Some(device) = saved.device() {
        device.tell_room(takes);
    }
    Ok(grown)
}

/// By how much the journal may grow behind a turn.
#[tactic(auto, unfolding(doc_server_settling::specs::Reserves::reserve))]
pub fn growth(room: Option<usize>) -> usize
    ensures { result ≡ growth_of room }
{
    match room {
        Some(room) if room < RESERVE => SLICES,
        _ => SLICE,
    }
}
