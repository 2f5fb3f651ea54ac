//! The door for monitors, at an address of its own: that the server runs, and what it counts. No reader comes by it, and no page.

use crate::monitor::Monitor;
use doc_page_parts::heap::{BTreeMap, Heap, Vec};
use doc_server_serving::net::handed::Handed;
use doc_server_serving::net::net_fault::NetFault;
use doc_server_status::counters::Counters;
use doc_server_status::standing::Standing;
use mio::net::TcpListener;
use std::cell::Cell;
use std::net::{Net, SocketAddr};
use std::time::Instant;

/// How many monitors stand at once at most. Whoever comes beside them is let go.
const MOST: usize = 16;

/// A listener, who has come by it, and what the server counts.
#[derive(Drop)]
pub struct Monitors<'a> {
    heap: Heap,
    listener: TcpListener,
    peers: Vec<Monitor>,
    counters: Counters,
    /// The numbers of the connections that are counted.
    standing: BTreeMap<u64, ()>,
    /// When the turn that runs began.
    began: Option<Instant>,
    /// What stands is told here.
    told: &'a Cell<Standing>,
}

impl<'a> Monitors<'a> {
    /// A door at this address. Nothing was counted yet.
    pub fn bind<R: Net>(
        rt: &R,
        heap: Heap,
        address: SocketAddr,
        told: &'a Cell<Standing>,
    ) -> Result<Monitors<'a>, NetFault> {
        let Ok(listener) = TcpListener::bind(rt, address) else {
            return Err(NetFault);
        };
        Ok(Monitors {
            heap,
            listener,
            peers: Vec::new(heap),
            counters: Counters::new(),
            standing: BTreeMap::new(heap),
            began: None,
            told,
        })
    }

    /// A turn begins: who waits is accepted, and whoever asks is answered.
    pub fn begin_turn(&mut self, now: Option<Instant>) {
        self.began = now;
        let Some(now) = now else {
            return;
        };
        self.counters.stood(self.told.get());
        self.accept(now);
        self.answer(now);
    }

    /// It ends.
    pub fn end_turn(&mut self, now: Option<Instant>) {
        let (Some(began), Some(now)) = (self.began, now) else {
            return;
        };
        let micros = now.duration_since(began).as_micros();
        self.counters
            .turned(u64::try_from(micros).unwrap_or(u64::MAX));
    }

    /// A connection of a reader stands.
    pub fn joined(&mut self, id: u64) {
        if self.standing.insert(id, ()).is_ok() {
            self.counters.joined();
        }
    }

    /// It has ended.
    pub fn left(&mut self, id: u64) {
        if self.standing.remove(&id).is_some() {
            self.counters.left();
        }
    }

    /// A reply to a reader was handed over.
    pub fn answered(&mut self, reply: Handed) {
        self.counters.replied(reply.code, reply.bytes);
    }

    /// Accepts those who wait, as many as may stand at once at most.
    fn accept(&mut self, now: Instant) {
        for _ in 0..MOST {
            let Ok((stream, _)) = self.listener.accept() else {
                return;
            };
            if self.peers.len() < MOST {
                let _ = self.peers.push(Monitor::new(self.heap, stream, now));
            }
        }
    }

    /// Answers those who ask, and lets those go that are over.
    fn answer(&mut self, now: Instant) {
        let mut left = Vec::new(self.heap);
        for peer in std::mem::replace(&mut self.peers, Vec::new(self.heap)) {
            if let Some(peer) = peer.go_on(self.heap, &mut self.counters, now) {
                let _ = left.push(peer);
            }
        }
        self.peers = left;
    }
}
