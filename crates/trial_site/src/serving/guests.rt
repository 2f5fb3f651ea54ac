//! Who waits at the door of a network in memory, by a text.
//!
//! - `leaves`: one who has gone again when it is accepted; `waits`: one for whom there is no room now.
//! - `plain BYTES`: a peer that sends these bytes at once, ends, and takes whatever it is sent.
//! - `peer PIECE BUDGET CALLS WAY BYTES`: a read gives at most PIECE bytes, a write takes at most BUDGET, and so many of them go well and
//!   the next one fails. WAY is `ends`, `silent` where the peer doesn't end what it sends, or one of these with `-pauses` behind it, where
//!   each call that may move bytes comes behind one that moves none.

ghost use Rattle.std.specs.Prelude.{ℕ, IfOk, IfSome};
ghost use Rattle.doc_server_serving.specs.Memories.{IsUntouched};

use doc_page_parts::bytes::Bytes;
use doc_page_parts::failure::Memory;
use doc_page_parts::heap::Heap;
use doc_server_serving::net::guest::Guest;
use doc_server_serving::net::memory_network::MemoryNetwork;
use doc_server_serving::net::script::Script;

/// What a text says of a peer.
#[derive(Clone, Copy)]
struct Peer<'a> {
    piece: usize,
    budget: usize,
    calls: u64,
    way: &'a str,
    input: &'a str,
}

/// A network on which nothing has passed, at whose door those wait that a text names, with ` | ` between two. None: the text names none.
pub fn network_of(heap: Heap, waits: u64, guests: &str) -> Result<Option<MemoryNetwork>, Memory>
    ensures { IfOk result (λ net. IfSome net (λ n. (k : ℕ) → IsUntouched n k)) }
{
    let mut net = MemoryNetwork::new(heap, waits);
    match invite_all(heap, &mut net, guests) {
        Ok(true) => Ok(Some(net)),
        Ok(false) => {
            drop(net);
            Ok(None)
        }
        Err(Memory) => {
            drop(net);
            Err(Memory)
        }
    }
}

/// Has those wait that a text names. False: it names none.
fn invite_all(heap: Heap, net: &mut MemoryNetwork, guests: &str) -> Result<bool, Memory>
    requires { (k : ℕ) → IsUntouched net.old k }
    ensures { (k : ℕ) → IsUntouched net.new k }
{
    'guests: for text in guests.split(" | ") {
        let Some(guest) = guest_of(heap, text)? else {
            return Ok(false);
        };
        net.invite(guest)?;
    }
    Ok(true)
}

/// What the peer of a text has to send. None: it names no peer.
pub fn input_of(text: &str) -> Option<&str> {
    match text.strip_prefix("plain ") {
        Some(input) => Some(input),
        None => Some(peer_of(text)?.input),
    }
}

fn guest_of(heap: Heap, text: &str) -> Result<Option<Guest>, Memory> {
    match text {
        "leaves" => Ok(Some(Guest::Leaves)),
        "waits" => Ok(Some(Guest::Waits)),
        _ => script_of(heap, text),
    }
}

fn script_of(heap: Heap, text: &str) -> Result<Option<Guest>, Memory> {
    let Some(input) = input_of(text) else {
        return Ok(None);
    };
    let mut script = Script::plain(Bytes::copy_of(heap, input.as_bytes())?);
    if let Some(peer) = peer_of(text) {
        script.ends = peer.way.starts_with("ends");
        script.piece = peer.piece;
        script.budget = peer.budget;
        script.pauses = peer.way.ends_with("-pauses");
        script.calls = peer.calls;
    }
    Ok(Some(Guest::Peer(script)))
}

fn peer_of(text: &str) -> Option<Peer<'_>> {
    let (piece, rest) = text.strip_prefix("peer ")?.split_once(' ')?;
    let (budget, rest) = rest.split_once(' ')?;
    let (calls, rest) = rest.split_once(' ')?;
    let (way, input) = rest.split_once(' ')?;
    Some(Peer {
        piece: piece.parse::<usize>().ok()?,
        budget: budget.parse::<usize>().ok()?,
        calls: calls.parse::<u64>().ok()?,
        way,
        input,
    })
}
