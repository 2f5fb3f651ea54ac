//! The calls by their names.
//!
//! - `open`: a peer connects. The answer is its number, from 1.
//! - `send N BYTES`: peer N writes these bytes; `drip N BYTES`: one by one, with a turn behind each. `close N`: it goes away.
//! - `hear N COUNT`: turns until peer N has heard so many whole replies since it was asked last. The answer is what it heard. `heads N
//!   COUNT`: the same until it has heard so many heads; a reply to HEAD is no more. `end N`: the same until the server has ended its
//!   stream, and ` end` behind it where it has.
//! - `turns COUNT`: so many turns. `fault`: why no more are made.
//! - `file`, `records`, `flips` and `cuts` are of the journal (`journals`).

use crate::listen::journals::journal_called;
use crate::listen::peer::{Ending, Peer};
use crate::listen::scene::{Awaited, Scene};
use crate::listen::told::push_told;
use doc_page::renderer::Renderer;
use doc_page_parts::failure::Memory;
use doc_page_parts::heap::{Heap, String};
use std::net::Net;
use std::rt::Clock;
use trial::answer::{no_call, shown, shown_if};

/// What a call answers.
pub fn answer<R: Renderer + Drop, P: Clock + Net>(
    rt: &P,
    scene: &mut Scene<R>,
    name: &str,
    given: &str,
) -> Result<String, Memory> {
    match name {
        "open" => shown_if(scene.heap, scene.open(rt)),
        "fault" => shown(scene.heap, scene.served.fault()),
        "send" | "drip" | "hear" | "heads" | "end" | "close" | "turns" => {
            numbered(rt, scene, name, given)
        }
        _ => journal_called(scene.heap, scene.served.journal_bytes(), name),
    }
}

/// A call that is given a number.
fn numbered<R: Renderer + Drop, P: Clock>(
    rt: &P,
    scene: &mut Scene<R>,
    name: &str,
    given: &str,
) -> Result<String, Memory> {
    let (number, rest) = given.split_once(' ').unwrap_or((given, ""));
    let Ok(number) = number.parse::<usize>() else {
        return no_call(scene.heap);
    };
    let place = number.wrapping_sub(1);
    match name {
        "hear" => replies_heard(rt, scene, place, rest, Ending::Content),
        "heads" => replies_heard(rt, scene, place, rest, Ending::Head),
        "end" => heard(rt, scene, place, Awaited::End),
        _ => {
            act(rt, scene, name, number, rest.as_bytes());
            shown(scene.heap, ())
        }
    }
}

/// A call without an answer.
fn act<R: Renderer + Drop, P: Clock>(
    rt: &P,
    scene: &mut Scene<R>,
    name: &str,
    number: usize,
    bytes: &[u8],
) {
    let place = number.wrapping_sub(1);
    match name {
        "send" => scene.send(rt, place, bytes),
        "drip" => scene.drip(rt, place, bytes),
        "turns" => scene.turns(rt, number),
        _ => {
            if let Some(peer) = scene.peers.get_mut(place) {
                peer.leave();
            }
        }
    }
}

/// What a peer heard once so many replies, a number in digits, have come.
fn replies_heard<R: Renderer + Drop, P: Clock>(
    rt: &P,
    scene: &mut Scene<R>,
    place: usize,
    digits: &str,
    ending: Ending,
) -> Result<String, Memory> {
    match digits.parse::<usize>() {
        Ok(count) => heard(rt, scene, place, Awaited::Replies(count, ending)),
        Err(_) => no_call(scene.heap),
    }
}

/// What a peer heard once what is waited for has come.
fn heard<R: Renderer + Drop, P: Clock>(
    rt: &P,
    scene: &mut Scene<R>,
    place: usize,
    awaited: Awaited,
) -> Result<String, Memory> {
    scene.wait(rt, place, awaited);
    let heap = scene.heap;
    match scene.peers.get_mut(place) {
        Some(peer) => heard_of(heap, peer, awaited),
        None => no_call(heap),
    }
}

/// What a peer heard, which it forgets.
fn heard_of(heap: Heap, peer: &mut Peer, awaited: Awaited) -> Result<String, Memory> {
    let mut out = String::new(heap);
    push_told(&mut out, peer.heard())?;
    peer.forget();
    if awaited == Awaited::End && peer.has_ended() {
        out.push_str(" end")?;
    }
    Ok(out)
}
