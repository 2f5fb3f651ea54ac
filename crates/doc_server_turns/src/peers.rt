//! The clients by the numbers of their connections.

ghost use Rattle.std.specs.Prelude.{◌≡◌, ◌==◌, ◌∷◌, ◌++◌, ℕ, [], false, length, is_some, option_map, true, Contains, OnErr, OnOk};
ghost use Rattle.std.specs.FinMap as map;
ghost use Rattle.std.specs.List.{list_any};
ghost use Rattle.doc_server_network.specs.Networks.{Recalls, Rests, Stays};
ghost use Rattle.doc_server_network.specs.Saved.{IsReady, IsUnedited, StaysSaved};
ghost use Rattle.doc_server_turns.specs.Hearing.{HearsAll, SparesAll};
ghost use Rattle.doc_server_turns.specs.Parts.{StayBut, is_over_at, numbers_of, takes_part, takes_part_at, turn_of};
ghost use Rattle.doc_server_turns.specs.Scopes.{is_earlier, only_reads};
ghost use Rattle.doc_server_turns.specs.Servings.{ServesAll};
ghost use Rattle.doc_server_turns.specs.Sharing.{SharesTurn};
ghost use Rattle.doc_server_turns.specs.Sweeps.{Sweeps, swept};
ghost use Rattle.doc_server_turns.specs.Visits.{AreEither};
ghost use Rattle.doc_server_turns.specs.Wirings.{AreWoken, EndAll, EndsAt, Gives, HasSentAt, HaveSent, IsFedAt, LingerAll, SweptAll, WokeAt, new_peer};

use crate::client::Client;
use crate::limits::Limits;
use crate::scope::Scope;
use doc_page::renderer::Renderer;
use doc_page_parts::heap::{BTreeMap, Heap, Vec};
use doc_server_journal::device::Device;
use doc_server_listen::share::Share;
use doc_server_network::network::Network;
use doc_server_network::permit::Permit;
use doc_server_network::saved_hub::SavedHub;
use std::alloc::AllocError;
use std::collections::btree_map::Range;
use std::marker::Model;

/// The clients by the numbers of their connections. Contracts see a map.
#[derive(Drop)]
pub struct Peers {
    clients: BTreeMap<u64, Client>,
}

impl Model for Peers {
    ghost use Rattle.std.specs.Coded.{coded_ℕ};
    ghost use Rattle.std.specs.FinMap as map;
    ghost use Rattle.std.specs.Ordering.{nat_cmp};
    ghost use Rattle.doc_server_turns.specs.contracts.client.Client as one;
    ghost use Rattle.doc_server_turns.specs.Wirings.{Peer};

    ghost Value = { map.FinMap nat_cmp Peer };

    ghost coded = { map.code coded_ℕ one.the_row.coded };

    ghost view = { λ p. map.from_entries p.clients.entries };
}

impl Peers {
    /// Nobody yet.
    pub fn new(heap: Heap) -> Peers
        ensures { result ≡ map.empty }
    {
        Peers {
            clients: BTreeMap::new(heap),
        }
    }

    /// How many they are.
    pub fn count(&self) -> usize
        ensures { result ≡ map.len self.now }
    {
        self.clients.len()
    }

    /// Takes a client in under this number.
    pub fn insert(&mut self, id: u64, client: Client) -> Result<(), AllocError>
        ensures taken { OnOk result (self.new ≡ map.insert self.old id client) }
        ensures refused { OnErr result (self.new ≡ self.old) }
    {
        self.clients.insert(id, client)?;
        Ok(())
    }

    /// Takes a client in whose connection is just being made. False: memory is lacking.
    pub fn admit(&mut self, heap: Heap, id: u64) -> bool
        ensures taken { result ≡ true → self.new ≡ map.insert self.old id new_peer }
        ensures refused { result ≡ false → self.new ≡ self.old }
    {
        match self.insert(id, Client::new(heap)) {
            Ok(()) => true,
            Err(_) => false,
        }
    }

    /// Whether a client stands under this number.
    pub fn has(&self, id: u64) -> bool
        ensures { result ≡ is_some (map.get self.now id) }
    {
        self.clients.contains_key(&id)
    }

    /// Lets the client of this number go, where there is one.
    pub fn remove(&mut self, id: u64)
        ensures { self.new ≡ map.remove self.old id }
    {
        let _ = self.clients.remove(&id);
    }

    /// The network has told of the client of this number, where there is one, and whether its peer is gone.
    pub fn wake(&mut self, id: u64, is_gone: bool)
        ensures { WokeAt id is_gone self.old self.new (map.get self.old id) }
    {
        let Some(client) = self.clients.get_mut(&id) else {
            return;
        };
        client.wake(is_gone);
    }

    /// Hands over what is pending for the clients of these numbers.
    pub fn send_all<N: Network>(&mut self, ready: &[u64], net: &mut N, permit: &Permit<'_>)
        ensures gives { Gives (N.gone net.old) (N.gone net.new) (N.has_ended net.new) self.old self.new }
        ensures sent { HaveSent ready.now self.new }
        ensures others { StayBut ready.now self.old self.new }
        ensures spares { SparesAll self.old self.new }
        ensures came { Rests (N.came net.old) (N.came net.new) }
        ensures woken { AreWoken (N.wakes net.old) self.old → AreWoken (N.wakes net.new) self.new }
        ensures ended { Stays (N.has_ended net.old) (N.has_ended net.new) }
        ensures free { Stays (N.is_free net.old) (N.is_free net.new) }
        ensures calls { Recalls (N.made net.old) (N.made net.new) }
    {
        'numbers: for id in ready {
            self.send_at(*id, net, permit);
        }
    }

    /// Hands over what is pending for the client of this number, where there is one.
    fn send_at<N: Network>(&mut self, id: u64, net: &mut N, permit: &Permit<'_>)
        ensures gives { Gives (N.gone net.old) (N.gone net.new) (N.has_ended net.new) self.old self.new }
        ensures sent { HasSentAt (map.get self.new id) }
        ensures others { (k : ℕ) → (k == id) ≡ false → map.get self.new k ≡ map.get self.old k }
        ensures spares { SparesAll self.old self.new }
        ensures came { Rests (N.came net.old) (N.came net.new) }
        ensures woken { AreWoken (N.wakes net.old) self.old → AreWoken (N.wakes net.new) self.new }
        ensures ended { Stays (N.has_ended net.old) (N.has_ended net.new) }
        ensures free { Stays (N.is_free net.old) (N.is_free net.new) }
        ensures calls { Recalls (N.made net.old) (N.made net.new) }
    {
        let Some(client) = self.clients.get_mut(&id) else {
            return;
        };
        client.send(id, net, permit);
    }

    /// Reads and steps the clients of these numbers, or where another server is followed does either. Nothing is handed over. The share says
    /// what the steps may cost, and is left what they did.
    pub fn take_in_all<N: Network, D: Device, R: Renderer + Drop>(
        &mut self,
        heap: Heap,
        ready: &[u64],
        net: &mut N,
        saved: &mut SavedHub<D, R>,
        piece: &mut [u8],
        share: &mut Share,
        scope: Scope,
    )
        ensures serves { (s : ServesAll (R.page saved.old.hub.0) saved.old.hub.1 saved.new.hub.1 ready.now
            (N.came net.old) (N.came net.new) (N.has_ended net.new) self.old self.new)
            × SharesTurn ready.now s.run share.old share.new
            × HearsAll ready.now s.run self.old self.new
            × (is_earlier scope ≡ true → AreEither ready.now s.run) }
        ensures others { StayBut ready.now self.old self.new }
        ensures gone { Rests (N.gone net.old) (N.gone net.new) }
        ensures woken { AreWoken (N.wakes net.old) self.old → AreWoken (N.wakes net.new) self.new }
        ensures ended { Stays (N.has_ended net.old) (N.has_ended net.new) }
        ensures free { Stays (N.is_free net.old) (N.is_free net.new) }
        ensures calls { Recalls (N.made net.old) (N.made net.new) }
        ensures same { R.page saved.new.hub.0 ≡ R.page saved.old.hub.0 }
        ensures saved { StaysSaved D.seen D.may_leave D.failed D.stale saved.old saved.new }
        ensures ready { IsReady D.seen D.may_leave D.failed D.stale saved.old
            → IsReady D.seen D.may_leave D.failed D.stale saved.new }
        ensures journal { saved.new.journal ≡ saved.old.journal }
        ensures unedited { only_reads scope ≡ true → IsUnedited saved.old saved.new }
        ensures room { length piece.new ≡ length piece.old }
    {
        'numbers: for id in ready {
            self.take_in_at(heap, *id, net, saved, piece, share, scope);
        }
    }

    /// Reads and steps the client of this number, where there is one.
    fn take_in_at<N: Network, D: Device, R: Renderer + Drop>(
        &mut self,
        heap: Heap,
        id: u64,
        net: &mut N,
        saved: &mut SavedHub<D, R>,
        piece: &mut [u8],
        share: &mut Share,
        scope: Scope,
    )
        ensures serves { (s : ServesAll (R.page saved.old.hub.0) saved.old.hub.1 saved.new.hub.1 (id ∷ [])
            (N.came net.old) (N.came net.new) (N.has_ended net.new) self.old self.new)
            × SharesTurn (id ∷ []) s.run share.old share.new
            × HearsAll (id ∷ []) s.run self.old self.new
            × (is_earlier scope ≡ true → AreEither (id ∷ []) s.run) }
        ensures others { (k : ℕ) → (k == id) ≡ false → map.get self.new k ≡ map.get self.old k }
        ensures gone { Rests (N.gone net.old) (N.gone net.new) }
        ensures woken { AreWoken (N.wakes net.old) self.old → AreWoken (N.wakes net.new) self.new }
        ensures ended { Stays (N.has_ended net.old) (N.has_ended net.new) }
        ensures free { Stays (N.is_free net.old) (N.is_free net.new) }
        ensures calls { Recalls (N.made net.old) (N.made net.new) }
        ensures same { R.page saved.new.hub.0 ≡ R.page saved.old.hub.0 }
        ensures saved { StaysSaved D.seen D.may_leave D.failed D.stale saved.old saved.new }
        ensures ready { IsReady D.seen D.may_leave D.failed D.stale saved.old
            → IsReady D.seen D.may_leave D.failed D.stale saved.new }
        ensures journal { saved.new.journal ≡ saved.old.journal }
        ensures unedited { only_reads scope ≡ true → IsUnedited saved.old saved.new }
        ensures room { length piece.new ≡ length piece.old }
    {
        share.begin();
        let Some(client) = self.clients.get_mut(&id) else {
            return;
        };
        client.take_in(heap, id, net, saved, piece, share, scope);
    }

    /// Ends the part of the clients of these numbers in a turn.
    pub fn finish_all<N: Network>(&mut self, ready: &[u64], net: &mut N, piece: &mut [u8])
        ensures lingers { LingerAll (N.came net.old) (N.came net.new) self.old self.new }
        ensures ends { EndAll ready.now self.old self.new }
        ensures others { StayBut ready.now self.old self.new }
        ensures spares { SparesAll self.old self.new }
        ensures gone { Rests (N.gone net.old) (N.gone net.new) }
        ensures woken { AreWoken (N.wakes net.old) self.old → AreWoken (N.wakes net.new) self.new }
        ensures ended { Stays (N.has_ended net.old) (N.has_ended net.new) }
        ensures free { Stays (N.is_free net.old) (N.is_free net.new) }
        ensures calls { Recalls (N.made net.old) (N.made net.new) }
        ensures room { length piece.new ≡ length piece.old }
    {
        'numbers: for id in ready {
            self.finish_at(*id, net, piece);
        }
    }

    /// Ends the part of the client of this number, where there is one.
    fn finish_at<N: Network>(&mut self, id: u64, net: &mut N, piece: &mut [u8])
        ensures lingers { LingerAll (N.came net.old) (N.came net.new) self.old self.new }
        ensures ends { EndsAt (map.get self.old id) (map.get self.new id) }
        ensures others { (k : ℕ) → (k == id) ≡ false → map.get self.new k ≡ map.get self.old k }
        ensures spares { SparesAll self.old self.new }
        ensures gone { Rests (N.gone net.old) (N.gone net.new) }
        ensures woken { AreWoken (N.wakes net.old) self.old → AreWoken (N.wakes net.new) self.new }
        ensures ended { Stays (N.has_ended net.old) (N.has_ended net.new) }
        ensures free { Stays (N.is_free net.old) (N.is_free net.new) }
        ensures calls { Recalls (N.made net.old) (N.made net.new) }
        ensures room { length piece.new ≡ length piece.old }
    {
        let Some(client) = self.clients.get_mut(&id) else {
            return;
        };
        client.finish(id, net, piece);
    }

    /// A sweep of the clients of these numbers: those whose time is are to be let go.
    pub fn sweep(&mut self, numbers: &[u64], limits: &Limits, is_crowded: bool)
        ensures exact { Sweeps limits.now is_crowded numbers.now self.old self.new }
        ensures swept { SweptAll self.old self.new }
        ensures fed { (k : ℕ) → Contains numbers.now k → IsFedAt (map.get self.new k) }
    {
        'numbers: for id in numbers {
            self.sweep_at(*id, limits, is_crowded);
        }
    }

    /// A sweep of the client of this number, where there is one.
    fn sweep_at(&mut self, id: u64, limits: &Limits, is_crowded: bool)
        ensures exact { map.get self.new id ≡ option_map (swept limits.now is_crowded) (map.get self.old id) }
        ensures others { (k : ℕ) → (k == id) ≡ false → map.get self.new k ≡ map.get self.old k }
        ensures swept { SweptAll self.old self.new }
        ensures fed { IsFedAt (map.get self.new id) }
    {
        let Some(client) = self.clients.get_mut(&id) else {
            return;
        };
        client.sweep(limits, is_crowded);
    }

    /// Adds the numbers of all.
    pub fn collect_all(&self, numbers: &mut Vec<u64>) -> Result<(), AllocError>
        ensures { OnOk result (numbers.new.items ≡ numbers.old.items ++ map.keys self.now) }
    {
        'clients: for (id, _) in &self.clients {
            numbers.push(*id)?;
        }
        Ok(())
    }

    /// Adds the numbers of those that take part in the turn that begins: first those from `first` on, and then the others.
    pub fn collect(&self, first: u64, ready: &mut Vec<u64>) -> Result<(), AllocError>
        ensures { OnOk result (ready.new.items ≡ ready.old.items ++ turn_of first self.now) }
    {
        collect_of(self.clients.range(first..), ready)?;
        collect_of(self.clients.range(..first), ready)
    }

    /// Whether one of these takes part in the next turn, be the network to tell of it or not.
    pub fn goes_on(&self, numbers: &[u64]) -> bool
        ensures { result ≡ list_any (λ id. takes_part_at (map.get self.now id)) numbers.now }
    {
        numbers.iter().any(|id| self.takes_part(*id))
    }

    /// Whether the client of this number, where there is one, takes part in the turn that begins.
    fn takes_part(&self, id: u64) -> bool
        ensures { result ≡ takes_part_at (map.get self.now id) }
    {
        match self.clients.get(&id) {
            Some(client) => client.takes_part(),
            None => false,
        }
    }

    /// Whether one of these is to be let go.
    pub fn has_over(&self, numbers: &[u64]) -> bool
        ensures { result ≡ list_any (λ id. is_over_at (map.get self.now id)) numbers.now }
    {
        numbers.iter().any(|id| self.is_over(*id))
    }

    /// Whether the client of this number, where there is one, is to be let go.
    fn is_over(&self, id: u64) -> bool
        ensures { result ≡ is_over_at (map.get self.now id) }
    {
        match self.clients.get(&id) {
            Some(client) => client.is_over(),
            None => false,
        }
    }

    /// Adds the numbers of those that are to be let go.
    pub fn collect_over(&self, gone: &mut Vec<u64>) -> Result<(), AllocError>
        ensures { OnOk result (gone.new.items
            ≡ gone.old.items ++ numbers_of (λ p. p.is_over) (map.entries self.now)) }
    {
        'clients: for (id, client) in &self.clients {
            if client.is_over() {
                gone.push(*id)?;
            }
        }
        Ok(())
    }
}

/// Adds the numbers of those of these clients that take part in the turn that begins.
fn collect_of(clients: Range<'_, u64, Client>, ready: &mut Vec<u64>) -> Result<(), AllocError>
    ensures { OnOk result (ready.new.items ≡ ready.old.items ++ numbers_of takes_part clients.entry) }
{
    'clients: for (id, client) in clients {
        if client.takes_part() {
            ready.push(*id)?;
        }
    }
    Ok(())
}
