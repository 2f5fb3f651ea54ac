//! A client: the replies to a connection's peer that aren't handed over yet, and what is done with it next.

ghost use Rattle.std.specs.Prelude.{◌≡◌, ◌⊎◌, true, false, [], length};
ghost use Rattle.doc_server_network.specs.Networks.{Recalls, Rests, RestsBut, Stays, StaysBut};
ghost use Rattle.doc_server_turns.specs.Hearing.{Spares};
ghost use Rattle.doc_server_turns.specs.Parts.{takes_part};
ghost use Rattle.doc_server_turns.specs.Sweeps.{swept};
ghost use Rattle.doc_server_turns.specs.Wirings.{ClosesBy, Ends, HandsOver, HasSent, Lingers, Swept, new_peer, woken};

use crate::limits::Limits;
use crate::sending::send_replies;
use crate::silence::Silence;
use crate::stage::Stage;
use crate::stranger::Stranger;
use crate::unfinished::Unfinished;
use doc_page_parts::bytes::Bytes;
use doc_page_parts::heap::Heap;
use doc_server_network::came::Came;
use doc_server_network::network::Network;
use doc_server_network::permit::Permit;
use std::collections::VecDeque;
use std::marker::Model;

/// The replies to a peer, of whose first `sent` bytes were handed over. A client reads only where nothing is pending, so that a peer that
/// doesn't read isn't read from.
#[derive(Drop)]
pub struct Client {
    pub(crate) replies: VecDeque<Bytes, Heap>,
    pub(crate) sent: usize,
    pub(crate) stage: Stage,
    /// Whether a call moved no byte, so that it waits until the network tells of it.
    pub(crate) rests: bool,
    /// Whether memory was lacking for its last step: then its request waits for the next sweep.
    pub(crate) is_starved: bool,
    pub(crate) silence: Silence,
    pub(crate) stranger: Stranger,
    pub(crate) unfinished: Unfinished,
}

impl Model for Client {
    ghost use Rattle.std.specs.Prelude.{◌&&◌, ◌==◌, not};
    ghost use Rattle.std.specs.VecDeque.{deque_len};
    ghost use Rattle.doc_server_turns.specs.Replies.{Starts, is_open_in, is_over_in, is_reading_in, left_of};
    ghost use Rattle.doc_server_turns.specs.Wirings.{Peer};

    ghost Value = { Peer };

    ghost view = { λ l. record {
      pending = left_of l.sent l.replies.items;
      is_open = is_open_in l.stage;
      rests = l.rests;
      starves = l.is_starved && (deque_len l.replies == 0);
      is_over = is_over_in l.stage;
      reads = is_reading_in l.stage && (deque_len l.replies == 0);
      owes = not (deque_len l.replies == 0);
      lingers = l.silence.lingers;
      lacks = l.is_starved;
      times = record { silence = l.silence; stranger = l.stranger; unfinished = l.unfinished };
    } };

    ghost invariant = { λ l. Starts l.sent l.replies.items };
}

impl Client {
    /// A client whose connection was just made. Of that the network tells at once.
    pub fn new(heap: Heap) -> Client
        ensures { result ≡ new_peer }
    {
        Client {
            replies: VecDeque::new(heap),
            sent: 0,
            stage: Stage::Reads,
            rests: true,
            is_starved: false,
            silence: Silence::new(),
            stranger: Stranger::new(),
            unfinished: Unfinished::new(),
        }
    }

    /// Whether the connection is still the client's.
    pub fn is_open(&self) -> bool
        ensures open { result ≡ self.now.is_open }
        ensures reads { self.now.reads ≡ true → result ≡ true }
    {
        match self.stage {
            Stage::Reads | Stage::Steps => true,
            Stage::Ends | Stage::Over => false,
        }
    }

    /// Whether a reply isn't handed over in full.
    pub fn has_pending(&self) -> bool
        ensures owes { result ≡ self.now.owes }
        ensures none { result ≡ false → self.now.pending ≡ [] }
        ensures reads { self.now.reads ≡ true → result ≡ false }
    {
        !self.replies.is_empty()
    }

    /// Whether it takes part in the turn that begins: it doesn't rest, neither until the network tells of it nor until the next sweep.
    pub fn takes_part(&self) -> bool
        ensures { result ≡ takes_part self.now }
    {
        if self.rests || self.stage == Stage::Over {
            return false;
        }
        !self.is_starved || !self.replies.is_empty()
    }

    /// Whether it is to be let go.
    pub fn is_over(&self) -> bool
        ensures { result ≡ self.now.is_over }
    {
        self.stage == Stage::Over
    }

    /// The network has told of it. Where its peer is gone, what it sent isn't answered any more, and it is let go.
    pub fn wake(&mut self, is_gone: bool)
        ensures { self.new ≡ woken self.old is_gone }
    {
        self.rests = false;
        if is_gone {
            self.stage = Stage::Over;
        }
    }

    /// Hands over what is pending, as far as the network takes it. Where a write fails the client is over: its connection is dropped when it
    /// is let go.
    pub fn send<N: Network>(&mut self, id: u64, net: &mut N, permit: &Permit<'_>)
        ensures gives { HandsOver (N.gone net.old id) (N.gone net.new id)
            self.old.pending self.new.pending }
        ensures why { ClosesBy (N.has_ended net.new id) self.old self.new }
        ensures sent { HasSent self.new }
        ensures spares { Spares self.old self.new }
        ensures others { RestsBut id (N.gone net.old) (N.gone net.new) }
        ensures came { Rests (N.came net.old) (N.came net.new) }
        ensures woken { (self.old.rests ≡ true → N.wakes net.old id)
            → self.new.rests ≡ true → N.wakes net.new id }
        ensures wakes { StaysBut id (N.wakes net.old) (N.wakes net.new) }
        ensures ended { Stays (N.has_ended net.old) (N.has_ended net.new) }
        ensures free { Stays (N.is_free net.old) (N.is_free net.new) }
        ensures calls { Recalls (N.made net.old) (N.made net.new) }
    {
        if self.rests || self.stage == Stage::Over || !self.has_pending() {
            return;
        }
        let waiting = (self.replies.len(), self.sent);
        let sent = send_replies(
            id,
            net,
            permit,
            &mut self.replies,
            &mut self.sent,
            &mut self.stranger.is_known,
        );
        match sent {
            Ok(true) => {}
            Ok(false) => self.rests = true,
            Err(_) => self.stage = Stage::Over,
        }
        if waiting != (self.replies.len(), self.sent) {
            self.silence.hear();
        }
    }

    /// Ends its part in a turn. Behind its last reply it lingers. Where it waits for nothing but its part of a turn, it isn't its peer that is
    /// silent.
    pub fn finish<N: Network>(&mut self, id: u64, net: &mut N, piece: &mut [u8])
        ensures lingers { Lingers (N.came net.old id) (N.came net.new id) self.old self.new }
        ensures ends { Ends self.old self.new }
        ensures spares { Spares self.old self.new }
        ensures others { RestsBut id (N.came net.old) (N.came net.new) }
        ensures gone { Rests (N.gone net.old) (N.gone net.new) }
        ensures woken { (self.old.rests ≡ true → N.wakes net.old id)
            → self.new.rests ≡ true → N.wakes net.new id }
        ensures wakes { StaysBut id (N.wakes net.old) (N.wakes net.new) }
        ensures ended { Stays (N.has_ended net.old) (N.has_ended net.new) }
        ensures free { Stays (N.is_free net.old) (N.is_free net.new) }
        ensures calls { Recalls (N.made net.old) (N.made net.new) }
        ensures room { length piece.new ≡ length piece.old }
    {
        if self.is_over() {
            return;
        }
        if self.rests {
            return;
        }
        if self.has_pending() {
            return;
        }
        if !self.is_open() {
            self.linger(id, net, piece);
            return;
        }
        if !self.is_starved {
            self.silence.hear();
        }
    }

    /// Behind the last reply the peer is told of the end once, and what still comes is dropped.
    fn linger<N: Network>(&mut self, id: u64, net: &mut N, piece: &mut [u8])
        requires closed { self.old.is_open ≡ false }
        requires awake { self.old.rests ≡ false }
        requires none { self.old.pending ≡ [] }
        ensures lingers { Lingers (N.came net.old id) (N.came net.new id) self.old self.new }
        ensures ends { (self.new.lingers ≡ true) ⊎ (self.new.is_over ≡ true) }
        ensures others { RestsBut id (N.came net.old) (N.came net.new) }
        ensures gone { Rests (N.gone net.old) (N.gone net.new) }
        ensures woken { self.new.rests ≡ true → N.wakes net.new id }
        ensures wakes { StaysBut id (N.wakes net.old) (N.wakes net.new) }
        ensures ended { Stays (N.has_ended net.old) (N.has_ended net.new) }
        ensures free { Stays (N.is_free net.old) (N.is_free net.new) }
        ensures calls { Recalls (N.made net.old) (N.made net.new) }
        ensures room { length piece.new ≡ length piece.old }
    {
        if self.silence.lingers {
            self.drain(id, net, piece);
            return;
        }
        self.silence.linger();
        if net.end(id) {
            self.drain(id, net, piece);
        } else {
            self.stage = Stage::Over;
        }
    }

    /// Reads once, and drops what came.
    fn drain<N: Network>(&mut self, id: u64, net: &mut N, piece: &mut [u8])
        requires closed { self.old.is_open ≡ false }
        requires awake { self.old.rests ≡ false }
        requires none { self.old.pending ≡ [] }
        requires lingers { self.old.lingers ≡ true }
        ensures lingers { Lingers (N.came net.old id) (N.came net.new id) self.old self.new }
        ensures others { RestsBut id (N.came net.old) (N.came net.new) }
        ensures gone { Rests (N.gone net.old) (N.gone net.new) }
        ensures woken { self.new.rests ≡ true → N.wakes net.new id }
        ensures wakes { StaysBut id (N.wakes net.old) (N.wakes net.new) }
        ensures ended { Stays (N.has_ended net.old) (N.has_ended net.new) }
        ensures free { Stays (N.is_free net.old) (N.is_free net.new) }
        ensures calls { Recalls (N.made net.old) (N.made net.new) }
        ensures room { length piece.new ≡ length piece.old }
    {
        match net.read(id, piece) {
            Ok(Came::Bytes(_)) => {}
            Ok(Came::Nothing) => self.rests = true,
            Ok(Came::End) | Err(_) => self.stage = Stage::Over,
        }
    }

    /// A sweep: what was starved is tried again, and who was silent for too long is let go, who is a stranger still, and whose request isn't
    /// whole. Where there is a crowd strangers are let go sooner.
    pub fn sweep(&mut self, limits: &Limits, is_crowded: bool)
        ensures exact { self.new ≡ swept limits.now is_crowded self.old }
        ensures swept { Swept self.old self.new }
        ensures fed { self.new.starves ≡ false }
    {
        self.is_starved = false;
        let is_silent = self.silence.sweep(limits.idle_seconds);
        let is_strange = self.stranger.sweep(limits.stranger_seconds, is_crowded);
        let is_late = self.unfinished.sweep(limits.request_seconds);
        if is_silent || is_strange || is_late {
            self.stage = Stage::Over;
        }
    }
}
