//! Letting clients go.

ghost use Rattle.std.specs.Prelude.{◌≡◌, ◌∷◌, ℕ, [], Contains, None};
ghost use Rattle.std.specs.FinMap as map;
ghost use Rattle.doc_server_network.specs.Networks.{Recalls, Stays};
ghost use Rattle.doc_server_network.specs.Saved.{IsReady, StaysSaved};
ghost use Rattle.doc_server_turns.specs.Hearing.{WaitOn};
ghost use Rattle.doc_server_turns.specs.Parts.{NoMore};
ghost use Rattle.doc_server_listen.specs.Sites.{IsSameSite};
ghost use Rattle.doc_server_turns.specs.Turns.{Turns};
ghost use Rattle.doc_server_turns.specs.Wirings.{AreWoken};

use crate::peers::Peers;
use doc_hub::event::ConnId;
use doc_page::renderer::Renderer;
use doc_server_journal::device::Device;
use doc_server_network::network::Network;
use doc_server_network::saved_hub::SavedHub;

/// Lets the clients of these numbers go: their connections are dropped, and closed.
pub fn let_go<N: Network, D: Device, R: Renderer + Drop>(
    peers: &mut Peers,
    gone: &[u64],
    net: &mut N,
    saved: &mut SavedHub<D, R>,
)
    ensures turns { Turns (R.page saved.old.hub.0) saved.old.hub.1 saved.new.hub.1 gone.now
        (N.came net.old) (N.came net.new) (N.gone net.old) (N.gone net.new) peers.old peers.new }
    ensures gone { (k : ℕ) → Contains gone.now k → map.get peers.new k ≡ None }
    ensures no_more { NoMore peers.old peers.new }
    ensures waits { WaitOn peers.old peers.new }
    ensures woken { AreWoken (N.wakes net.old) peers.old → AreWoken (N.wakes net.new) peers.new }
    ensures ended { Stays (N.has_ended net.old) (N.has_ended net.new) }
    ensures free { Stays (N.is_free net.old) (N.is_free net.new) }
    ensures calls { Recalls (N.made net.old) (N.made net.new) }
    ensures same { R.page saved.new.hub.0 ≡ R.page saved.old.hub.0 }
    ensures site { IsSameSite saved.old.hub.1 saved.new.hub.1 }
    ensures saved { StaysSaved D.seen D.may_leave D.failed D.stale saved.old saved.new }
    ensures ready { IsReady D.seen D.may_leave D.failed D.stale saved.old
        → IsReady D.seen D.may_leave D.failed D.stale saved.new }
    ensures journal { saved.new.journal ≡ saved.old.journal }
    ensures unsaved { saved.new.unsaved ≡ saved.old.unsaved }
{
    'numbers: for id in gone {
        let_one_go(peers, *id, net, saved);
    }
}

/// Lets the client of this number go, where there is one.
fn let_one_go<N: Network, D: Device, R: Renderer + Drop>(
    peers: &mut Peers,
    id: u64,
    net: &mut N,
    saved: &mut SavedHub<D, R>,
)
    ensures turns { Turns (R.page saved.old.hub.0) saved.old.hub.1 saved.new.hub.1 (id ∷ [])
        (N.came net.old) (N.came net.new) (N.gone net.old) (N.gone net.new) peers.old peers.new }
    ensures gone { map.get peers.new id ≡ None }
    ensures out { (k : ℕ) → map.get peers.old k ≡ None → map.get peers.new k ≡ None }
    ensures no_more { NoMore peers.old peers.new }
    ensures waits { WaitOn peers.old peers.new }
    ensures woken { AreWoken (N.wakes net.old) peers.old → AreWoken (N.wakes net.new) peers.new }
    ensures ended { Stays (N.has_ended net.old) (N.has_ended net.new) }
    ensures free { Stays (N.is_free net.old) (N.is_free net.new) }
    ensures calls { Recalls (N.made net.old) (N.made net.new) }
    ensures same { R.page saved.new.hub.0 ≡ R.page saved.old.hub.0 }
    ensures site { IsSameSite saved.old.hub.1 saved.new.hub.1 }
    ensures saved { StaysSaved D.seen D.may_leave D.failed D.stale saved.old saved.new }
    ensures ready { IsReady D.seen D.may_leave D.failed D.stale saved.old
        → IsReady D.seen D.may_leave D.failed D.stale saved.new }
    ensures journal { saved.new.journal ≡ saved.old.journal }
    ensures unsaved { saved.new.unsaved ≡ saved.old.unsaved }
{
    if !peers.has(id) {
        return;
    }
    peers.remove(id);
    net.close(id);
    saved.disconnect(ConnId(id));
}
