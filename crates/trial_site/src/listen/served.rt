//! A server with a hub and a journal in memory.

ghost use Rattle.std.specs.Prelude.{◌≡◌, List, ℕ, [], false, IfSome};
ghost use Rattle.doc_server_journal.specs.Devices.{IsFresh};
ghost use Rattle.doc_server_journal.specs.Journals.{IsOpen};
ghost use Rattle.doc_server_journal.specs.Memories.{has_failed, memory_leaves, memory_seen, memory_stale};
ghost use Rattle.doc_server_serving.specs.Saved.{IsAllSaved, IsReady};

use doc_hub::hub::Hub;
use doc_page::renderer::Renderer;
use doc_page_parts::bytes::Bytes;
use doc_page_parts::heap::Heap;
use doc_server_journal::device::Device;
use doc_server_journal::journal::Journal;
use doc_server_journal::memory::MemoryDevice;
use doc_server_journal::opening::Opened;
use doc_server_journal::torn::Unkept;
use doc_server_journal_records::header::Identity;
use doc_server_restore::edits::Edits;
use doc_server_restore::restore::restore;
use doc_server_serving::fault::ServeFault;
use doc_server_serving::limits::Limits;
use doc_server_serving::net::mio_network::MioNetwork;
use doc_server_serving::net::saved_hub::SavedHub;
use doc_server_serving::next_turn::NextTurn;
use doc_server_serving::room::keep_room;
use doc_server_serving::scope::Scope;
use doc_server_serving::server::Server;
use doc_server_settling::reserve::{RESERVE, SPARE};
use std::marker::Model;
use std::net::{Ipv4Addr, Net, SocketAddr};
use std::rt::Clock;
use std::time::Instant;

/// How many connections a server has at most, after how many seconds of silence each of them ends, how many calls of its journal's device
/// go well, and up to how many bytes that is grown.
#[derive(Clone, Copy)]
pub struct Bounds {
    pub connections: usize,
    pub idle_seconds: u64,
    pub calls: u64,
    pub most: usize,
}

/// A server, and what it serves. Behind a turn that was refused it makes no further one.
pub struct Served<R: Renderer + Drop> {
    server: Server,
    net: MioNetwork,
    saved: SavedHub<MemoryDevice, R>,
    next: NextTurn,
    fault: Option<ServeFault>,
}

/// Written out, so that it is proved here once: what a derived drop does is proved wherever a value is let go.
impl<R: Renderer + Drop> Drop for Served<R> {
    fn drop(self) {
        let Served {
            server: _,
            net: _,
            saved: _,
            next: _,
            fault: _,
        } = self;
    }
}

impl<R: Renderer + Drop> Model for Served<R> {
    ghost use Rattle.std.specs.Prelude.{◌≡◌, ⊤, None};
    ghost use Rattle.doc_server_journal.specs.Memories.{has_failed, memory_leaves, memory_seen, memory_stale};
    ghost use Rattle.doc_server_serving.specs.Saved.{IsAllSaved, IsReady};

    ghost Value = { ⊤ };

    ghost view = { λ _. tt };

    ghost invariant = { λ s. s.fault ≡ None
        → IsReady memory_seen memory_leaves has_failed memory_stale s.saved × IsAllSaved s.saved };
}

/// How many milliseconds who follows waits at most before it looks.
pub const FOLLOW_MILLIS: u64 = 20;

/// Connections end after so many seconds of silence alone.
pub fn idle(idle_seconds: u64) -> Limits {
    Limits {
        idle_seconds,
        stranger_seconds: u64::MAX,
        request_seconds: u64::MAX,
    }
}

impl<R: Renderer + Drop> Served<R> {
    /// A server at a port that the system chooses, with the journal of this file, whose edits are made on the hub.
    pub fn new<P: Clock + Net>(
        rt: &P,
        heap: Heap,
        hub: Hub<R>,
        bounds: Bounds,
        file: &[u8],
    ) -> Option<Served<R>> {
        let saved = saved_of(heap, hub, bounds, file)?;
        let address = SocketAddr::from((Ipv4Addr::LOCALHOST, 0));
        let net = MioNetwork::bind(rt, heap, address, false).ok()?;
        let now = Instant::now(rt).ok()?;
        let limits = idle(bounds.idle_seconds);
        let server = Server::new(now, heap, bounds.connections, limits, FOLLOW_MILLIS).ok()?;
        Some(Served {
            server,
            net,
            saved,
            next: NextTurn::new(),
            fault: None,
        })
    }

    /// The address that it listens at.
    pub fn address(&self) -> Option<SocketAddr> {
        self.net.address()
    }

    /// Why it serves no more.
    pub fn fault(&self) -> Option<ServeFault> {
        self.fault
    }

    /// One turn. False: none is made any more.
    pub fn turn<P: Clock>(&mut self, rt: &P) -> bool {
        if self.fault.is_some() {
            return false;
        }
        match self.server.turn(
            rt,
            &mut self.net,
            &mut self.saved,
            &mut self.next,
            Scope::All,
        ) {
            Ok(_) => true,
            Err(fault) => {
                self.fault = Some(fault);
                false
            }
        }
    }

    /// What the journal's file holds.
    pub fn journal_bytes(&self) -> &[u8] {
        match self.saved.device() {
            Some(device) => device.bytes(),
            None => &[],
        }
    }
}

/// A hub on which the edits of the journal of a file in memory are made, and which keeps its further edits there. The journal gets its room.
fn saved_of<R: Renderer + Drop>(
    heap: Heap,
    hub: Hub<R>,
    bounds: Bounds,
    file: &[u8],
) -> Option<SavedHub<MemoryDevice, R>>
    ensures { IfSome result (λ saved. IsReady memory_seen memory_leaves has_failed memory_stale saved
        × IsAllSaved saved) }
{
    let mut saved = saved_over(heap, hub, bounds, file)?;
    match keep_room(heap, &mut saved, RESERVE + SPARE) {
        Ok(_) => Some(saved),
        Err(_) => None,
    }
}

/// The same, with the room that the file has.
pub fn saved_over<R: Renderer + Drop>(
    heap: Heap,
    hub: Hub<R>,
    bounds: Bounds,
    file: &[u8],
) -> Option<SavedHub<MemoryDevice, R>>
    ensures { IfSome result (λ saved. IsReady memory_seen memory_leaves has_failed memory_stale saved
        × IsAllSaved saved) }
{
    let mut hub = hub;
    let journal = journal_of(heap, &mut hub, bounds, file)?;
    Some(SavedHub::over(heap, hub, journal))
}

/// The journal of a file in memory, whose edits are made on the hub.
fn journal_of<R: Renderer + Drop>(
    heap: Heap,
    hub: &mut Hub<R>,
    bounds: Bounds,
    file: &[u8],
) -> Option<Journal<MemoryDevice>>
    ensures { IfSome result (λ journal. (texts : List (List ℕ))
        × IsOpen memory_seen memory_leaves has_failed memory_stale journal texts) }
{
    let device = device_of(heap, bounds, file)?;
    if file.is_empty() {
        return make_journal(heap, device);
    }
    open_journal(heap, device, file.len(), hub)
}

/// A new journal on an empty device.
fn make_journal<D: Device + Drop>(heap: Heap, device: D) -> Option<Journal<D>>
    requires usable { D.failed device ≡ false }
    ensures { IfSome result (λ journal. IsOpen D.seen D.may_leave D.failed D.stale journal []) }
{
    match Journal::make(heap, device, &Identity::of(&[0; 16])) {
        Ok(journal) => Some(journal),
        Err(_) => None,
    }
}

/// The journal of a device, opened, and its edits made on a site.
fn open_journal<D: Device + Drop, E: Edits>(
    heap: Heap,
    device: D,
    most: usize,
    site: &mut E,
) -> Option<Journal<D>>
    requires usable { D.failed device ≡ false }
    requires fresh { IsFresh (D.stale device) }
    ensures { IfSome result (λ journal. (texts : List (List ℕ))
        × IsOpen D.seen D.may_leave D.failed D.stale journal texts) }
{
    match Journal::open(heap, device, most, &mut Unkept) {
        Ok(Opened { journal, texts }) => {
            let restored = restore(heap, site, texts.get());
            drop(texts);
            match restored {
                Ok(()) => Some(journal),
                Err(_) => None,
            }
        }
        Err(_) => None,
    }
}

/// A file in memory, with these bounds, a sync of which loses what was written where it fails.
fn device_of(heap: Heap, bounds: Bounds, file: &[u8]) -> Option<MemoryDevice>
    ensures usable { IfSome result (λ device. has_failed device ≡ false) }
    ensures fresh { IfSome result (λ device. IsFresh (memory_stale device)) }
{
    let Ok(bytes) = Bytes::copy_of(heap, file) else {
        return None;
    };
    match MemoryDevice::new(heap, bytes, bounds.calls, bounds.most) {
        Ok(device) => Some(losing(device)),
        Err(_) => None,
    }
}

/// The same file, a sync of which loses what was written where it fails.
fn losing(device: MemoryDevice) -> MemoryDevice
    ensures usable { has_failed result ≡ has_failed device }
    ensures fresh { IsFresh (memory_stale device) → IsFresh (memory_stale result) }
{
    let mut device = device;
    device.lose_at_failed_syncs();
    device
}
