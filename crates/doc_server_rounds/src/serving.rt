//! Serving the peers of a listener.

ghost use Rattle.std.specs.Prelude.{◌≡◌, [], IfOk, IfErr, OnOk};
ghost use Rattle.doc_server_rounds.specs.Servings.{Clears, Refuses, Rounds, ServesOn, Stops};

use crate::accepting::accept_links;
use crate::dropping::disconnect_all;
use crate::fault::ServeFault;
use crate::link::Link;
use crate::round::{Round, serve_round};
use doc_hub::hub::Hub;
use doc_page::renderer::Renderer;
use doc_page_parts::heap::{Heap, Vec};
use doc_server_streams::tcp_link::TcpLink;
use std::net::TcpListener;

/// Accepts the connections of so many peers, serves them in one round of at most so many passes, and drops them. No peer is
/// answered before all are accepted. Before it returns, also where it is refused, each connection that it made is dropped; the
/// numbers stay given. It waits for peers: for each connection, and at each read and write. That a peer is ever answered no
/// clause says.
///
/// Refusals come in the order of [`ServeFault`], but that `Memory` may be answered before another one is found.
pub fn serve_on<R: Renderer + Drop>(
    heap: Heap,
    hub: &mut Hub<R>,
    listener: &TcpListener,
    count: u32,
    turns: u32,
) -> Result<Round, ServeFault>
    ensures served { IfOk result (λ round.
        ServesOn (R.page hub.old.0) hub.old.1 count turns round hub.new.1) }
    ensures cleared { OnOk result (Clears (R.page hub.old.0) hub.old.1 count hub.new.1) }
    ensures refused { IfErr result (λ fault.
        Refuses (R.page hub.old.0) hub.old.1 count fault hub.new.1) }
    ensures same { R.page hub.new.0 ≡ R.page hub.old.0 }
{
    let mut links = Vec::new(heap);
    let result = serve_accepted(heap, hub, listener, count, turns, &mut links);
    disconnect_all(hub, &links);
    result
}

/// Accepts the connections and serves them. Their links stand behind it, also where it is refused.
fn serve_accepted<R: Renderer + Drop>(
    heap: Heap,
    hub: &mut Hub<R>,
    listener: &TcpListener,
    count: u32,
    turns: u32,
    links: &mut Vec<Link<TcpLink>>,
) -> Result<Round, ServeFault>
    requires none { links.old.items ≡ [] }
    ensures served { IfOk result (λ round.
        Rounds (R.page hub.old.0) hub.old.1 count turns round hub.new.1 links.new.items) }
    ensures refused { IfErr result (λ fault.
        Stops (R.page hub.old.0) hub.old.1 count fault hub.new.1 links.new.items) }
    ensures same { R.page hub.new.0 ≡ R.page hub.old.0 }
{
    accept_links(hub, listener, count, links)?;
    Ok(serve_round(heap, hub, links.as_mut_slice(), turns)?)
}
