//! A server and its peers.

use crate::listen::journals::without_zeros;
use crate::listen::peer::{Ending, Peer};
use crate::listen::served::{Bounds, Served};
use doc_hub::hub::Hub;
use doc_page::renderer::Renderer;
use doc_page_parts::heap::{Heap, Vec};
use doc_people::settings::Settings;
use doc_store::readers::Readers;
use std::net::Net;
use std::rt::Clock;

/// The readers of the site.
const READERS: &str = r#"
[[reader]]
token = "tok-owner"
owner = true

[[reader]]
token = "tok-ann"
groups = ["staff"]

[[reader]]
token = "tok-bob"
groups = ["ops"]
"#;

/// How many filled pages the site keeps.
const CACHE: usize = 4;

/// How many turns are made at most until what is waited for comes. A turn takes half a second where nothing comes.
const TURNS: u32 = 150;

/// A server and its peers, which are numbered from 1 in the order in which they connected.
#[derive(Drop)]
pub struct Scene<R: Renderer + Drop> {
    pub heap: Heap,
    pub served: Served<R>,
    pub peers: Vec<Peer>,
}

/// What is waited for of a peer.
#[derive(Clone, Copy, PartialEq, Eq)]
pub enum Awaited {
    /// So many whole replies, which end like this, or the end of the stream.
    Replies(usize, Ending),
    /// The end of the stream.
    End,
}

/// The server of a line `CONNECTIONS IDLE CALLS MOST`, or the same with ` again` behind it, which has this file, or with ` bare`, which has
/// it without the zeros at its end.
pub fn new_scene<R: Renderer + Drop, P: Clock + Net>(
    rt: &P,
    heap: Heap,
    renderer: R,
    line: &str,
    file: &[u8],
) -> Option<Scene<R>> {
    let (line, file) = begun_with(line, file);
    let bounds = bounds_of(line)?;
    let hub = new_hub(heap, renderer, true)?;
    let served = Served::new(rt, heap, hub, bounds, file)?;
    Some(Scene {
        heap,
        served,
        peers: Vec::new(heap),
    })
}

/// What a line says beside the file that its server has, and what of a file that is.
fn begun_with<'a>(line: &'a str, file: &'a [u8]) -> (&'a str, &'a [u8]) {
    if let Some(line) = line.strip_suffix(" again") {
        return (line, file);
    }
    match line.strip_suffix(" bare") {
        Some(line) => (line, without_zeros(file)),
        None => (line, b"".as_slice()),
    }
}

pub fn bounds_of(line: &str) -> Option<Bounds> {
    let (connections, rest) = line.split_once(' ')?;
    let (idle, rest) = rest.split_once(' ')?;
    let (calls, most) = rest.split_once(' ')?;
    Some(Bounds {
        connections: connections.parse::<usize>().ok()?,
        idle_seconds: idle.parse::<u64>().ok()?,
        calls: calls.parse::<u64>().ok()?,
        most: most.parse::<usize>().ok()?,
    })
}

pub fn new_hub<R: Renderer + Drop>(heap: Heap, renderer: R, takes_edits: bool) -> Option<Hub<R>> {
    let Ok(readers) = Readers::from_toml(heap, READERS) else {
        return None;
    };
    let settings = Settings {
        keep_alive: true,
        takes_edits,
        browse: None,
    };
    Hub::with_settings(heap, renderer, readers, settings, CACHE).ok()
}

impl<R: Renderer + Drop> Scene<R> {
    /// A further peer, and its number.
    pub fn open<P: Net>(&mut self, rt: &P) -> Option<usize> {
        let peer = Peer::connect(rt, self.heap, self.served.address()?)?;
        self.peers.push(peer).ok()?;
        Some(self.peers.len())
    }

    /// So many turns.
    pub fn turns<P: Clock>(&mut self, rt: &P, count: usize) {
        for _ in 0..count {
            self.served.turn(rt);
        }
    }

    /// Has a peer write these bytes, with turns where the system takes no more of them.
    pub fn send<P: Clock>(&mut self, rt: &P, place: usize, bytes: &[u8]) {
        let mut rest = bytes;
        for _ in 0..TURNS {
            rest = self.write_at(place, rest);
            if rest.is_empty() {
                return;
            }
            self.served.turn(rt);
        }
    }

    /// Has a peer write these bytes one by one, with a turn behind each.
    pub fn drip<P: Clock>(&mut self, rt: &P, place: usize, bytes: &[u8]) {
        for byte in bytes {
            self.send(rt, place, &[*byte]);
            self.served.turn(rt);
        }
    }

    /// Has a peer write once, and answers the bytes that weren't taken.
    fn write_at<'a>(&self, place: usize, bytes: &'a [u8]) -> &'a [u8] {
        match self.peers.get(place) {
            Some(peer) => peer.write(bytes),
            None => bytes,
        }
    }

    /// Makes turns until what is waited for of a peer has come. Behind the last turn of a server it reads once more.
    pub fn wait<P: Clock>(&mut self, rt: &P, place: usize, awaited: Awaited) {
        for _ in 0..TURNS {
            if self.has_come(place, awaited) {
                return;
            }
            if !self.served.turn(rt) {
                self.has_come(place, awaited);
                return;
            }
        }
    }

    /// Has a peer read what has come, and answers whether that is what is waited for.
    fn has_come(&mut self, place: usize, awaited: Awaited) -> bool {
        let Some(peer) = self.peers.get_mut(place) else {
            return true;
        };
        peer.read();
        match awaited {
            Awaited::Replies(count, ending) => peer.has_heard(count, ending) || peer.has_ended(),
            Awaited::End => peer.has_ended(),
        }
    }
}
