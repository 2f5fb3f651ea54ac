//! A configured site, served on a host: the journal that it is given is opened and its edits are made, the address is bound, and peers are
//! served until the program is told to stop. Here stands the promise that a server makes whatever its system is.

ghost use Rattle.std.specs.Prelude.{◌≡◌, ◌≤◌, ℕ, None, Ok, IfOk, OnOk, is_some, option_copied};
ghost use Rattle.std.specs.FinMap as map;
ghost use Rattle.doc_server_network.specs.Crashes.{CrashesLeave};
ghost use Rattle.doc_server_network.specs.Networks.{end_of_input};
ghost use Rattle.doc_server_network.specs.Saved.{IsAllSaved, IsReady, IsSettled};
ghost use Rattle.doc_server_serving.specs.Crashing.{AreKnown, RestoresFrontBy};
ghost use Rattle.doc_server_serving.specs.Forces.{AreAllOfCalls, IsInForce, IsSettledInForce};
ghost use Rattle.doc_server_serving.specs.Hostings.{IsHosted};
ghost use Rattle.doc_server_serving.specs.Hosts.{IsUnused};
ghost use Rattle.doc_server_serving.specs.Invariants.{HasServedNobody, IsServed};
ghost use Rattle.doc_server_serving.specs.Leading.{LeadsWith};
ghost use Rattle.doc_server_turns.specs.Wirings.{AreWoken};
ghost use Rattle.doc_store.specs.Store.{StoreState};

pub mod ended;
pub mod fault;
pub mod host;
mod journaled;
mod room;
pub mod terms;
mod torn_on_host;

use crate::fault::ServeFault;
use crate::hosting::ended::Ended;
use crate::hosting::fault::HostingFault;
use crate::hosting::host::Host;
use crate::hosting::journaled::saved_hub;
use crate::hosting::terms::Terms;
use crate::named_file::NamedFile;
use crate::server::Server;
use crate::source::Source;
use doc_hub::hub::Hub;
use doc_page::renderer::Renderer;
use doc_page_parts::heap::Heap;
use doc_server_journal::device::Device;
use doc_server_network::network::Network;
use doc_server_network::saved_hub::SavedHub;
use doc_server_network::watch::Watch;
use doc_server_network::watched::Watched;
use std::rt::Clock;
use std::time::Instant;

/// Serves a hub that has the pages of a configuration, with the journal that the terms name, if they do, until it is told to stop. Somebody
/// may watch what passes, and is handed back. The readers are the hub's, and from some turn on those that the source gives. All pages stand,
/// and the journal's edits are made, before the address is bound; peers are accepted behind the word that it is. At an `Err` nobody was
/// accepted.
pub fn host_site<H: Host, R: Renderer + Drop, C: Clock, W: Watch + Drop, S: Source>(
    rt: &C,
    heap: Heap,
    host: &H,
    hub: Hub<R>,
    terms: &Terms<'_>,
    watch: Option<W>,
    source: &mut S,
) -> Result<Ended<H::Device, H::Network, R, W>, HostingFault<H::Fault>>
    ensures hosted { IfOk result (λ ended. IsHosted H.Device.seen H.Device.may_leave
        H.Device.failed H.Device.stale H.Device.moment H.Device.left_since
        (S.answered source.new) (R.page hub.0) (H.file host.now)
        (option_copied terms.now.journal) hub.1 ended.saved
        (H.Network.came ended.net) (H.Network.gone ended.net) (ended.served ≡ Ok tt)) }
    ensures woken { IfOk result (λ ended. AreWoken (H.Network.wakes ended.net) ended.server.peers) }
    ensures bound { IfOk result (λ ended. map.len ended.server.peers ≤ terms.now.connections) }
    ensures ends { IfOk result (λ ended. OnOk ended.served
        (H.Network.made ended.net end_of_input)) }
    ensures watch { IfOk result (λ ended. is_some ended.watch ≡ is_some watch) }
{
    let saved = saved_hub(heap, host, hub, terms.journal)?;
    let server = new_server(rt, heap, terms)?;
    let net = bound(heap, host)?;
    match watch {
        Some(watch) => {
            let net = Watched::new(heap, net, watch);
            Ok(serve(rt, server, net, saved, source).unwatched())
        }
        None => Ok(serve(rt, server, net, saved, source)),
    }
}

/// A server without clients, which begins now.
fn new_server<C: Clock, F: Drop>(
    rt: &C,
    heap: Heap,
    terms: &Terms<'_>,
) -> Result<Server, HostingFault<F>>
    ensures empty { IfOk result (λ server. server.peers ≡ map.empty) }
    ensures most { IfOk result (λ server. server.door.most ≡ terms.now.connections) }
    ensures limits { IfOk result (λ server. server.limits ≡ terms.now.limits) }
    ensures follows { IfOk result (λ server. server.follow_millis ≡ terms.now.follow_millis) }
{
    let Ok(now) = Instant::now(rt) else {
        return Err(HostingFault::Serve(ServeFault::Socket));
    };
    match Server::new(
        now,
        heap,
        terms.connections,
        terms.limits,
        terms.follow_millis,
    ) {
        Ok(server) => Ok(server),
        Err(_) => Err(HostingFault::Serve(ServeFault::Memory)),
    }
}

/// A network that listens at the host's address, which was told.
fn bound<H: Host>(heap: Heap, host: &H) -> Result<H::Network, HostingFault<H::Fault>>
    ensures { IfOk result (λ net. (k : ℕ) → IsUnused (H.Network.came net k)
        (H.Network.gone net k) (H.Network.is_free net k)) }
{
    let net = match host.bind(heap) {
        Ok(net) => net,
        Err(fault) => return Err(HostingFault::Host(fault)),
    };
    match host.tell_bound() {
        Ok(()) => Ok(net),
        Err(fault) => Err(HostingFault::Host(fault)),
    }
}

/// Serves until it is told to stop.
fn serve<
    N: Network + Drop,
    D: Device + NamedFile + Drop,
    R: Renderer + Drop,
    W: Watch + Drop,
    C: Clock,
    S: Source,
>(rt: &C, server: Server, net: N, saved: SavedHub<D, R>, source: &mut S) -> Ended<D, N, R, W>
    requires all { IsAllSaved saved }
    requires ready { IsReady D.seen D.may_leave D.failed D.stale saved }
    requires new { HasServedNobody saved.hub.1.given (N.came net) (N.gone net)
        (N.is_free net) server.peers }
    ensures served { (s : LeadsWith (S.answered source.new) (R.page saved.hub.0)
        saved.hub.1 result.saved.hub.1)
        × IsServed s.run (N.came result.net) (N.gone result.net)
        × ((config : StoreState) → AreKnown D.seen
        → IsSettled D.seen D.may_leave D.failed D.stale config saved
        → AreAllOfCalls (S.answered source.new)
        → CrashesLeave D.seen D.moment D.left_since
        (RestoresFrontBy (IsInForce (S.answered source.new) config)
        (R.page saved.hub.0) saved.hub.1 s.run)
        saved.journal result.saved.journal) }
    ensures woken { AreWoken (N.wakes result.net) result.server.peers }
    ensures bound { map.len result.server.peers ≤ server.door.most }
    ensures ends { OnOk result.served (N.made result.net end_of_input) }
    ensures watch { result.watch ≡ None }
    ensures settled { (config : StoreState)
        → IsSettled D.seen D.may_leave D.failed D.stale config saved
        → AreAllOfCalls (S.answered source.new)
        → OnOk result.served (IsSettledInForce D.seen D.may_leave D.failed D.stale
        (S.answered source.new) config result.saved) }
{
    let mut server = server;
    let mut net = net;
    let mut saved = saved;
    let served = server.serve(rt, &mut net, &mut saved, source);
    Ended {
        saved,
        net,
        server,
        watch: None,
        served,
    }
}
