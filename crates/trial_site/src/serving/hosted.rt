//! A server over a network in memory, with its guests.
//!
//! - `serve WAITS CONNECTIONS IDLE CALLS MOST | GUEST | GUEST ..`: a server with the journal of the file, which isn't grown past so many
//!   bytes, and of which so many calls go well and the next one fails. Afterwards the file is what the server has left. The server ends
//!   behind so many waits; what else is given is as of a `server` (`listen`). A guest is as `guests` says.
//! - `host WAITS CONNECTIONS | GUEST | GUEST ..`: a server without a journal.
//!
//! The answer: why it ends; and behind ` | ` for each guest what it was handed over, whether that was ended and whether the connection was
//! let go, and `let go` where it was before each request has had its reply; how much of what it has to send came, by who watches, and the
//! codes and the lengths of its replies.

ghost use Rattle.std.specs.Prelude.{ℕ, [], None};
ghost use Rattle.doc_server_journal.specs.Memories.{has_failed, memory_leaves, memory_seen, memory_stale};
ghost use Rattle.doc_server_serving.specs.Memories.{IsUntouched};
ghost use Rattle.doc_server_serving.specs.Saved.{IsAllSaved, IsReady};
ghost use Rattle.doc_server_serving.specs.Wirings.{IsNew};

use crate::listen::scene::bounds_of;
use crate::listen::served::{Bounds, FOLLOW_MILLIS, idle, saved_over};
use crate::listen::told::push_told;
use crate::serving::guests::{input_of, network_of};
use crate::serving::held::replace;
use crate::serving::notes::{Notes, Watcher};
use crate::serving::nothing_given::NothingGiven;
use doc_hub::hub::Hub;
use doc_page::renderer::Renderer;
use doc_page_parts::failure::Memory;
use doc_page_parts::heap::{Heap, String, Vec};
use doc_server_journal::device::Device;
use doc_server_journal::memory::MemoryDevice;
use doc_server_serving::fault::ServeFault;
use doc_server_serving::named_file::NamedFile;
use doc_server_serving::net::memory_network::MemoryNetwork;
use doc_server_serving::net::network::Network;
use doc_server_serving::net::saved_hub::SavedHub;
use doc_server_serving::net::watched::Watched;
use doc_server_serving::server::Server;
use doc_server_serving::source::Source;
use std::rt::Clock;
use std::time::Instant;
use trial::answer::{no_call, number_and_text};

/// What a server is asked to do.
#[derive(Clone, Copy)]
pub struct Asked<'a> {
    waits: u64,
    connections: usize,
    idle_seconds: u64,
    guests: &'a str,
}

/// Serves with the journal of the file.
pub fn served<R: Renderer + Drop, P: Clock>(
    rt: &P,
    heap: Heap,
    hub: Hub<R>,
    given: &str,
    file: &mut Vec<u8>,
) -> Result<String, Memory> {
    let Some((asked, bounds)) = asked_with_bounds(given) else {
        return no_call(heap);
    };
    let Some(mut saved) = saved_over(heap, hub, bounds, file.as_slice()) else {
        return Ok(String::from_str(heap, "refused: no journal")?);
    };
    let answer = serve_guests(rt, heap, asked, &mut saved, &mut NothingGiven);
    let kept = keep_file(heap, &saved, file);
    drop(saved);
    match kept {
        Ok(()) => answer,
        Err(Memory) => {
            drop(answer);
            Err(Memory)
        }
    }
}

/// Serves without a journal.
pub fn hosted<R: Renderer + Drop, P: Clock>(
    rt: &P,
    heap: Heap,
    hub: Hub<R>,
    given: &str,
) -> Result<String, Memory> {
    let Some(asked) = asked_without_bounds(given) else {
        return no_call(heap);
    };
    let mut saved: SavedHub<MemoryDevice, R> = SavedHub::new(hub);
    let answer = serve_guests(rt, heap, asked, &mut saved, &mut NothingGiven);
    drop(saved);
    answer
}

fn asked_with_bounds(given: &str) -> Option<(Asked<'_>, Bounds)> {
    let (line, guests) = given.split_once(" | ")?;
    let (waits, line) = number_and_text(line)?;
    let bounds = bounds_of(line)?;
    let asked = Asked {
        waits: waits as u64,
        connections: bounds.connections,
        idle_seconds: bounds.idle_seconds,
        guests,
    };
    Some((asked, bounds))
}

/// What is asked of a server without a journal.
pub fn asked_without_bounds(given: &str) -> Option<Asked<'_>> {
    let (line, guests) = given.split_once(" | ")?;
    let (waits, connections) = number_and_text(line)?;
    Some(Asked {
        waits: waits as u64,
        connections: connections.parse::<usize>().ok()?,
        idle_seconds: u64::MAX,
        guests,
    })
}

/// The file is what the journal's device holds now.
pub fn keep_file<R: Renderer + Drop>(
    heap: Heap,
    saved: &SavedHub<MemoryDevice, R>,
    file: &mut Vec<u8>,
) -> Result<(), Memory> {
    let Some(device) = saved.device() else {
        return Ok(());
    };
    replace(heap, file, device.bytes())
}

/// Serves the guests, and tells what came of that.
pub fn serve_guests<R: Renderer + Drop, P: Clock, S: Source>(
    rt: &P,
    heap: Heap,
    asked: Asked<'_>,
    saved: &mut SavedHub<MemoryDevice, R>,
    source: &mut S,
) -> Result<String, Memory>
    requires all { IsAllSaved saved.old }
    requires ready { IsReady memory_seen memory_leaves has_failed memory_stale saved.old }
{
    let Some(net) = network_of(heap, asked.waits, asked.guests)? else {
        return no_call(heap);
    };
    let mut notes = Notes::new(heap);
    let Played { ended, net } = play(rt, heap, asked, saved, net, &mut notes, source);
    let told = told(heap, asked.guests, ended, &net, &notes);
    drop(net);
    drop(notes);
    told
}

/// Why a server ended, and its network.
#[derive(Drop)]
struct Played {
    ended: Result<(), ServeFault>,
    net: MemoryNetwork,
}

/// Serves over a network that is watched.
fn play<R: Renderer + Drop, P: Clock, S: Source>(
    rt: &P,
    heap: Heap,
    asked: Asked<'_>,
    saved: &mut SavedHub<MemoryDevice, R>,
    net: MemoryNetwork,
    notes: &mut Notes,
    source: &mut S,
) -> Played
    requires all { IsAllSaved saved.old }
    requires ready { IsReady memory_seen memory_leaves has_failed memory_stale saved.old }
    requires new { (k : ℕ) → IsUntouched net k }
{
    let mut watched = Watched::new(heap, net, Watcher { notes });
    let ended = serve(rt, heap, asked, saved, &mut watched, source);
    Played {
        ended,
        net: watched.into_parts().0,
    }
}

/// Serves over any network.
fn serve<N: Network, D: Device + NamedFile, R: Renderer + Drop, P: Clock, S: Source>(
    rt: &P,
    heap: Heap,
    asked: Asked<'_>,
    saved: &mut SavedHub<D, R>,
    net: &mut N,
    source: &mut S,
) -> Result<(), ServeFault>
    requires all { IsAllSaved saved.old }
    requires ready { IsReady D.seen D.may_leave D.failed D.stale saved.old }
    requires new { (k : ℕ) → IsNew (N.came net.old k) (N.gone net.old k) [] [] None }
    requires free { (k : ℕ) → N.is_free net.old k }
{
    let Ok(now) = Instant::now(rt) else {
        return Err(ServeFault::Socket);
    };
    let limits = idle(asked.idle_seconds);
    let mut server = Server::new(now, heap, asked.connections, limits, FOLLOW_MILLIS)?;
    let ended = server.serve(rt, net, saved, source);
    drop(server);
    ended
}

/// What is told of a server and its guests.
fn told(
    heap: Heap,
    guests: &str,
    ended: Result<(), ServeFault>,
    net: &MemoryNetwork,
    notes: &Notes,
) -> Result<String, Memory> {
    if notes.is_short() {
        return Err(Memory);
    }
    let mut out = String::new(heap);
    match ended {
        Ok(()) => out.push_str("served")?,
        Err(fault) => write!(out, "refused: {fault}")?,
    }
    push_guests(&mut out, guests, net, notes)?;
    Ok(out)
}

/// Adds what is told of each guest. They are numbered from 1 in the order in which they are accepted.
fn push_guests(
    out: &mut String,
    guests: &str,
    net: &MemoryNetwork,
    notes: &Notes,
) -> Result<(), Memory> {
    let mut id: u64 = 0;
    for text in guests.split(" | ") {
        id = id.saturating_add(1);
        out.push_str(" | ")?;
        match input_of(text) {
            Some(input) => push_guest(out, id, input, net, notes)?,
            None => out.push_str(text)?,
        }
    }
    Ok(())
}

/// Adds what is told of a peer that has this to send.
fn push_guest(
    out: &mut String,
    id: u64,
    input: &str,
    net: &MemoryNetwork,
    notes: &Notes,
) -> Result<(), Memory> {
    let summary = notes.summary(id, input.as_bytes());
    if !summary.has_joined {
        out.push_str("not accepted")?;
        return Ok(());
    }
    push_told(out, net.handed_over(id))?;
    if net.has_ended(id) {
        out.push_str(" ended")?;
    }
    if net.is_closed(id) {
        out.push_str(" closed")?;
        if summary.answers < requests_in(input) {
            out.push_str(", let go")?;
        }
    }
    summary.push(out)?;
    notes.push_replies(out, id)
}

/// How many heads of requests a text holds.
fn requests_in(input: &str) -> usize {
    let mut count: usize = 0;
    for _ in input.split("\r\n\r\n") {
        count = count.saturating_add(1);
    }
    count.saturating_sub(1)
}
