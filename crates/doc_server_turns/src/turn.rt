//! Turns: clients are served, and nothing that a turn answers is handed over before its edits are on the device.

ghost use Rattle.std.specs.Prelude.{◌≡◌, ℕ, true, length, Contains, IsErrOf, OnErr, OnOk};
ghost use Rattle.std.specs.FinMap as map;
ghost use Rattle.doc_hub.specs.Worlds.{World};
ghost use Rattle.doc_server_network.specs.Networks.{Recalls, Rests, Stays};
ghost use Rattle.doc_server_network.specs.Crashes.{CrashesLeave, RestoresEither};
ghost use Rattle.doc_server_network.specs.Saved.{HasFailed, IsAllSaved, IsReady, IsSaved, IsSettled, IsUnedited, WasWrittenAt};
ghost use Rattle.doc_server_turns.specs.Hearing.{HeardAt, SparesAll, WaitOn};
ghost use Rattle.doc_server_turns.specs.Parts.{StayBut};
ghost use Rattle.doc_server_turns.specs.Scopes.{is_earlier, only_reads};
ghost use Rattle.doc_server_turns.specs.Sharing.{IsModest, SharesTurn};
ghost use Rattle.doc_server_turns.specs.Turns.{Turns};
ghost use Rattle.doc_server_turns.specs.Visits.{AreEither};
ghost use Rattle.doc_server_turns.specs.Wirings.{AreWoken, EndAll, Gives, GivesFronts, HaveSent};
ghost use Rattle.doc_store.specs.Store.{StoreState};

use crate::peers::Peers;
use crate::scope::Scope;
use doc_page::renderer::Renderer;
use doc_page_parts::heap::Heap;
use doc_server_journal::device::Device;
use doc_server_listen::share::Share;
use doc_server_network::network::Network;
use doc_server_network::saved_hub::SavedHub;
use doc_server_settling::fault::TurnFault;

/// One turn of the clients of these numbers, so many seconds behind the beginning of 1970: what is pending is handed over, they are read and
/// stepped as far as the turn answers what came, their edits are settled, and the replies are handed over. Where another server is followed
/// whoever is read isn't stepped. After an `Err` the server ends: the edits of the turn aren't kept, and none of its replies was handed over.
pub fn turn<N: Network, D: Device, R: Renderer + Drop>(
    heap: Heap,
    peers: &mut Peers,
    ready: &[u64],
    net: &mut N,
    saved: &mut SavedHub<D, R>,
    piece: &mut [u8],
    share: &mut Share,
    seconds: u64,
    scope: Scope,
) -> Result<(), TurnFault>
    requires all { IsAllSaved saved.old }
    requires ready { IsReady D.seen D.may_leave D.failed D.stale saved.old }
    ensures all { OnOk result (IsAllSaved saved.new) }
    ensures ready { OnOk result (IsReady D.seen D.may_leave D.failed D.stale saved.new) }
    ensures settled { (config : StoreState) (begin : World)
        → IsSaved D.seen D.may_leave D.failed D.stale config begin saved.old
        → OnOk result (IsSettled D.seen D.may_leave D.failed D.stale config saved.new) }
    ensures any_moment { (config : StoreState) (begin : World)
        → IsSaved D.seen D.may_leave D.failed D.stale config begin saved.old
        → CrashesLeave D.seen D.moment D.left_since
        (RestoresEither config begin saved.new.hub.1) saved.old.journal saved.new.journal }
    ensures turns { (s : Turns (R.page saved.old.hub.0) saved.old.hub.1 saved.new.hub.1 ready.now
        (N.came net.old) (N.came net.new) (N.gone net.old) (N.gone net.new) peers.old peers.new)
        × SharesTurn ready.now s.run share.old share.new × IsModest ready.now s.run
        × ((k : ℕ) → Contains ready.now k
        → HeardAt k s.run (map.get peers.old k) (map.get peers.new k))
        × (is_earlier scope ≡ true → AreEither ready.now s.run) }
    ensures unedited { only_reads scope ≡ true → IsUnedited saved.old saved.new }
    ensures waits_on { WaitOn peers.old peers.new }
    ensures others { StayBut ready.now peers.old peers.new }
    ensures time { OnOk result (WasWrittenAt seconds saved.old.journal saved.new.journal) }
    ensures failed { IsErrOf result TurnFault.CannotWrite
        → HasFailed D.failed saved.new.journal }
    ensures sent { OnOk result (HaveSent ready.now peers.new) }
    ensures ends { OnOk result (EndAll ready.now peers.new peers.new) }
    ensures waits { OnErr result (GivesFronts (N.gone net.old) (N.gone net.new) peers.old) }
    ensures woken { AreWoken (N.wakes net.old) peers.old → AreWoken (N.wakes net.new) peers.new }
    ensures ended { Stays (N.has_ended net.old) (N.has_ended net.new) }
    ensures free { Stays (N.is_free net.old) (N.is_free net.new) }
    ensures calls { Recalls (N.made net.old) (N.made net.new) }
    ensures same { R.page saved.new.hub.0 ≡ R.page saved.old.hub.0 }
    ensures room { length piece.new ≡ length piece.old }
{
    send_settled(peers, ready, net, saved);
    peers.take_in_all(heap, ready, net, saved, piece, share, scope);
    saved.settle(heap, seconds)?;
    send_settled(peers, ready, net, saved);
    peers.finish_all(ready, net, piece);
    Ok(())
}

/// Hands over what is pending for the clients of these numbers, where all edits are on the device.
fn send_settled<N: Network, D: Device, R: Renderer + Drop>(
    peers: &mut Peers,
    ready: &[u64],
    net: &mut N,
    saved: &SavedHub<D, R>,
)
    requires all { IsAllSaved saved.now }
    ensures gives { Gives (N.gone net.old) (N.gone net.new) (N.has_ended net.new) peers.old peers.new }
    ensures sent { HaveSent ready.now peers.new }
    ensures others { StayBut ready.now peers.old peers.new }
    ensures spares { SparesAll peers.old peers.new }
    ensures came { Rests (N.came net.old) (N.came net.new) }
    ensures woken { AreWoken (N.wakes net.old) peers.old → AreWoken (N.wakes net.new) peers.new }
    ensures ended { Stays (N.has_ended net.old) (N.has_ended net.new) }
    ensures free { Stays (N.is_free net.old) (N.is_free net.new) }
    ensures calls { Recalls (N.made net.old) (N.made net.new) }
{
    let permit = saved.permit();
    peers.send_all(ready, net, &permit);
}
