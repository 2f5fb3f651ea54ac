//! Accepting the connections of peers.

ghost use Rattle.std.specs.Prelude.{◌≡◌, ◌≤◌, [], length, IfErr, OnErr, OnOk};
ghost use Rattle.doc_server_rounds.specs.Faults.{Explains, IsRefusal};
ghost use Rattle.doc_server_rounds.specs.Made.{Makes, MakesOne};

use crate::fault::ServeFault;
use crate::link::Link;
use doc_hub::hub::Hub;
use doc_page::renderer::Renderer;
use doc_page_parts::failure::Memory;
use doc_page_parts::heap::Vec;
use doc_server_streams::tcp_link::TcpLink;
use std::net::TcpListener;

/// Accepts the connections of so many peers, and makes a link of each. Where one is refused, the links before it stand.
pub fn accept_links<R: Renderer + Drop>(
    hub: &mut Hub<R>,
    listener: &TcpListener,
    count: u32,
    links: &mut Vec<Link<TcpLink>>,
) -> Result<(), ServeFault>
    requires none { links.old.items ≡ [] }
    ensures made { Makes (R.page hub.old.0) hub.old.1 links.new.items hub.new.1 }
    ensures few { length links.new.items ≤ count }
    ensures all { OnOk result (length links.new.items ≡ count) }
    ensures why { IfErr result (λ fault.
        Explains hub.new.1 (length links.new.items) count fault) }
    ensures same { R.page hub.new.0 ≡ R.page hub.old.0 }
{
    'peers: for _ in 0..count {
        accept_link(hub, listener, links)?;
    }
    Ok(())
}

/// Accepts the connection of one peer, for whose link room is reserved first, and makes the link.
fn accept_link<R: Renderer + Drop>(
    hub: &mut Hub<R>,
    listener: &TcpListener,
    links: &mut Vec<Link<TcpLink>>,
) -> Result<(), ServeFault>
    ensures made { OnOk result
        (MakesOne (R.page hub.old.0) hub.old.1 links.old.items hub.new.1 links.new.items) }
    ensures refused { OnErr result
        ((hub.new.1 ≡ hub.old.1) × (links.new.items ≡ links.old.items)) }
    ensures why { IfErr result (λ fault. IsRefusal hub.old.1 fault) }
    ensures same { R.page hub.new.0 ≡ R.page hub.old.0 }
{
    links.reserve(1).map_err(Memory::from)?;
    let Ok((stream, _)) = listener.accept() else {
        return Err(ServeFault::Accept);
    };
    let link = Link::new(hub, TcpLink::new(stream))?;
    links.push(link).unwrap();
    Ok(())
}
