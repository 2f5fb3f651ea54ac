//! Accepting peers.

ghost use Rattle.doc_server_network.specs.declared.accepted.Accepted.{Accepted};
ghost use Rattle.doc_server_serving.specs.Doors.{is_open};
ghost use Rattle.std.specs.Prelude.{◌≡◌, ◌≤◌, ◌<◌, ◌+◌, ◌||◌, ◌⊎◌, false, true};
ghost use Rattle.std.specs.FinMap as map;
ghost use Rattle.doc_server_network.specs.Networks.{Accepts, HasNobody, Recalls, Rests, StaysBut, WasAsked};
ghost use Rattle.doc_server_network.specs.Saved.{IsReady, StaysSaved};
ghost use Rattle.doc_server_turns.specs.Hearing.{WaitOn};
ghost use Rattle.doc_server_serving.specs.Invariants.{AreFree, GoesOn};
ghost use Rattle.doc_server_turns.specs.Parts.{NoMore};
ghost use Rattle.doc_server_listen.specs.Sites.{IsSameSite};

use doc_page::renderer::Renderer;
use doc_page_parts::heap::Heap;
use doc_server_journal::device::Device;
use doc_server_network::accepted::Accepted;
use doc_server_network::network::Network;
use doc_server_network::saved_hub::SavedHub;
use doc_server_turns::peers::Peers;
use doc_server_turns::telling::News;

/// How many peers are accepted in a turn at most.
const ACCEPTS: usize = 64;

/// Whether peers are accepted, and how many may be served at once.
#[derive(Clone, Copy)]
pub struct Door {
    pub most: usize,
    /// Whether a peer may be waiting to be accepted.
    is_awaited: bool,
    /// Whether the system, or memory, is lacking for peers: it is tried again behind the next sweep.
    rests: bool,
}

impl Door {
    /// A door at which nobody has knocked, for so many peers at once.
    pub fn new(most: usize) -> Door
        ensures { result ≡ record { most = most; is_awaited = false; rests = false } }
    {
        Door {
            most,
            is_awaited: false,
            rests: false,
        }
    }

    /// What the network has told.
    pub fn hear(&mut self, news: &News)
        ensures { self.new ≡ record self.old { is_awaited = self.old.is_awaited || news.now.is_knocked } }
    {
        self.is_awaited = self.is_awaited || news.is_knocked;
    }

    /// A sweep: it is tried again.
    pub fn wake(&mut self)
        ensures { self.new ≡ record self.old { rests = false } }
    {
        self.rests = false;
    }

    /// Whether a peer can be accepted now.
    pub fn is_open(&self, peers: &Peers) -> bool
        ensures open { result ≡ is_open self.now (map.len peers.now) }
        ensures room { result ≡ true → map.len peers.now < self.now.most }
    {
        self.is_awaited && !self.rests && peers.count() < self.most
    }

    /// Accepts peers while there is room, at most so many. The next ones wait at the door.
    pub fn accept<N: Network, D: Device, R: Renderer + Drop>(
        &mut self,
        heap: Heap,
        peers: &mut Peers,
        net: &mut N,
        saved: &mut SavedHub<D, R>,
    )
        requires free { AreFree saved.old.hub.1.given (N.is_free net.old) }
        ensures goes { GoesOn R.page N.came N.gone N.wakes N.is_free saved.old.hub saved.new.hub
            net.old net.new peers.old peers.new }
        ensures no_more { NoMore peers.old peers.new }
        ensures waits { WaitOn peers.old peers.new }
        ensures bound { map.len peers.old ≤ self.old.most → map.len peers.new ≤ self.old.most }
        ensures awaits { (self.new.is_awaited ≡ self.old.is_awaited)
            ⊎ HasNobody saved.old.hub.1.given (N.made net.new) }
        ensures rests { self.old.rests ≡ true → self.new.rests ≡ true }
        ensures asked { is_open self.new (map.len peers.new) ≡ true
            → WasAsked saved.old.hub.1.given (N.made net.new) }
        ensures calls { Recalls (N.made net.old) (N.made net.new) }
        ensures most { self.new.most ≡ self.old.most }
        ensures site { IsSameSite saved.old.hub.1 saved.new.hub.1 }
        ensures saved { StaysSaved D.seen D.may_leave D.failed D.stale saved.old saved.new }
        ensures ready { IsReady D.seen D.may_leave D.failed D.stale saved.old
            → IsReady D.seen D.may_leave D.failed D.stale saved.new }
        ensures journal { saved.new.journal ≡ saved.old.journal }
        ensures unsaved { saved.new.unsaved ≡ saved.old.unsaved }
    {
        'accepts: for _ in 0..ACCEPTS {
            if !self.is_open(peers) {
                return;
            }
            self.accept_one(heap, peers, net, saved);
        }
    }

    /// Accepts the next peer, where there is one, under the number of a connection that is made for it.
    fn accept_one<N: Network, D: Device, R: Renderer + Drop>(
        &mut self,
        heap: Heap,
        peers: &mut Peers,
        net: &mut N,
        saved: &mut SavedHub<D, R>,
    )
        requires free { AreFree saved.old.hub.1.given (N.is_free net.old) }
        ensures goes { GoesOn R.page N.came N.gone N.wakes N.is_free saved.old.hub saved.new.hub
            net.old net.new peers.old peers.new }
        ensures no_more { NoMore peers.old peers.new }
        ensures waits { WaitOn peers.old peers.new }
        ensures more { map.len peers.new ≤ map.len peers.old + 1 }
        ensures awaits { (self.new.is_awaited ≡ self.old.is_awaited)
            ⊎ HasNobody saved.old.hub.1.given (N.made net.new) }
        ensures rests { self.old.rests ≡ true → self.new.rests ≡ true }
        ensures asked { (self.new.rests ≡ true) ⊎ WasAsked saved.old.hub.1.given (N.made net.new) }
        ensures calls { Recalls (N.made net.old) (N.made net.new) }
        ensures most { self.new.most ≡ self.old.most }
        ensures site { IsSameSite saved.old.hub.1 saved.new.hub.1 }
        ensures saved { StaysSaved D.seen D.may_leave D.failed D.stale saved.old saved.new }
        ensures ready { IsReady D.seen D.may_leave D.failed D.stale saved.old
            → IsReady D.seen D.may_leave D.failed D.stale saved.new }
        ensures journal { saved.new.journal ≡ saved.old.journal }
        ensures unsaved { saved.new.unsaved ≡ saved.old.unsaved }
    {
        let Ok(id) = saved.connect() else {
            self.rests = true;
            return;
        };
        if !peers.admit(heap, id.0) {
            self.rests = true;
            saved.disconnect(id);
            return;
        }
        if self.asks(id.0, net) {
            return;
        }
        peers.remove(id.0);
        saved.disconnect(id);
    }

    /// Asks the network for the next peer, under this number. True: it stands.
    fn asks<N: Network>(&mut self, id: u64, net: &mut N) -> bool
        requires { N.is_free net.old id }
        ensures wakes { StaysBut id (N.wakes net.old) (N.wakes net.new) }
        ensures arms { result ≡ true → N.wakes net.new id }
        ensures came { Rests (N.came net.old) (N.came net.new) }
        ensures gone { Rests (N.gone net.old) (N.gone net.new) }
        ensures free { StaysBut id (N.is_free net.old) (N.is_free net.new) }
        ensures call { (a : Accepted) × N.made net.new (Accepts id a) }
        ensures awaits { (self.new.is_awaited ≡ self.old.is_awaited)
            ⊎ N.made net.new (Accepts id Accepted.Nobody) }
        ensures rests { self.old.rests ≡ true → self.new.rests ≡ true }
        ensures calls { Recalls (N.made net.old) (N.made net.new) }
        ensures refused { result ≡ false → N.is_free net.new id }
        ensures most { self.new.most ≡ self.old.most }
    {
        match net.accept(id) {
            Accepted::Peer => true,
            Accepted::Failed => false,
            Accepted::Nobody => {
                self.is_awaited = false;
                false
            }
            Accepted::Rests => {
                self.rests = true;
                false
            }
        }
    }
}
