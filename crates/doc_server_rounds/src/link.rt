//! A link: a peer's stream, and the connection of a hub that serves it.

ghost use Rattle.std.specs.Prelude.{◌≡◌, ◌<◌, true, [], IfErr, IfOk, Ok, Err};
ghost use Rattle.doc_hub.specs.Runs.{Happens};
ghost use Rattle.doc_hub_events.specs.Events.{disconnect_on};
ghost use Rattle.doc_hub_events.specs.declared.event.Event.TheVariants as events;
ghost use Rattle.doc_hub.specs.Worlds.{disconnected};
ghost use Rattle.doc_server_rounds.specs.Served.{Serves, ServesOn, unread_len};

use crate::phase::Phase;
use crate::sending::write_all;
use doc_hub::event::{ConnId, Step};
use doc_hub::hub::Hub;
use doc_hub::refusal::{ConnectError, PushError, StepError};
use doc_page::renderer::Renderer;
use doc_server_streams::stream::Stream;
use std::marker::Model;

/// How many bytes are read at once.
const PIECE: usize = 16_384;

/// A stream, and the connection that its peer's bytes go to. What was read stays in the link until the hub has taken it, in room
/// that is there from the beginning: serving a link takes no memory but the hub's and the stream's. A reply is written in the
/// pass whose step makes it, or the link is closed; so none waits for another pass.
#[derive(Drop)]
pub struct Link<S: Stream + Drop> {
    stream: S,
    id: ConnId,
    piece: [u8; PIECE],
    pending: usize,
    phase: Phase,
}

impl<S: Stream + Drop> Model for Link<S> {
    ghost use Rattle.std.specs.Prelude.{take};
    ghost use Rattle.doc_server_rounds.specs.Peers.{Peer, HasRoom, Suits, is_open_in};

    ghost Value = { Peer };

    ghost view = { λ l. record {
      id = l.id.0;
      is_open = is_open_in l.phase;
      pending = take l.pending l.piece;
      unread = S.unread l.stream;
      written = S.written l.stream;
      failed = S.failed l.stream;
      stalls = S.stalls l.stream;
    } };

    ghost invariant = { λ l. HasRoom l.piece l.pending
        × Suits l.phase (S.unread l.stream) (S.stalls l.stream) (S.failed l.stream) };
}

impl<S: Stream + Drop> Link<S> {
    /// A link on a connection that is made for it. It takes no memory but the hub's. A refused one drops the stream.
    pub fn new<R: Renderer + Drop>(hub: &mut Hub<R>, stream: S) -> Result<Link<S>, ConnectError>
        requires { S.failed stream ≡ 0 }
        ensures connects { IfOk result (λ link. Happens (R.page hub.old.0) hub.old.1
            events.Connect hub.new.1 (Ok (record { 0 = link.id }))) }
        ensures refused { IfErr result (λ e. Happens (R.page hub.old.0) hub.old.1
            events.Connect hub.new.1 (Err e)) }
        ensures same { R.page hub.new.0 ≡ R.page hub.old.0 }
        ensures new { IfOk result (λ link. link ≡ record {
          id = link.id;
          is_open = true;
          pending = [];
          unread = S.unread stream;
          written = S.written stream;
          failed = 0;
          stalls = S.stalls stream;
        }) }
    {
        let id = hub.connect()?;
        Ok(Link {
            stream,
            id,
            piece: [0; PIECE],
            pending: 0,
            phase: Phase::Reads,
        })
    }

    /// The stream, of which also a closed link tells what was written.
    pub fn stream(&self) -> &S
        ensures unread { S.unread result.now ≡ self.now.unread }
        ensures written { S.written result.now ≡ self.now.written }
        ensures failed { S.failed result.now ≡ self.now.failed }
        ensures stalls { S.stalls result.now ≡ self.now.stalls }
    {
        &self.stream
    }

    /// The number of the connection, which also a closed link tells.
    pub fn id(&self) -> ConnId
        ensures { result ≡ record { 0 = self.now.id } }
    {
        self.id
    }

    pub fn is_open(&self) -> bool
        ensures { result ≡ self.now.is_open }
    {
        match self.phase {
            Phase::Closed => false,
            Phase::Reads | Phase::Waits | Phase::Ends => true,
        }
    }

    /// One pass of an open link.
    pub fn pass<R: Renderer + Drop>(&mut self, hub: &mut Hub<R>)
        requires { self.old.is_open ≡ true }
        ensures serves { Serves (R.page hub.old.0) hub.old.1 self.old hub.new.1 self.new }
        ensures same { R.page hub.new.0 ≡ R.page hub.old.0 }
    {
        self.read(hub);
        if !self.is_open() {
            return;
        }
        self.push(hub);
        if !self.is_open() {
            return;
        }
        self.answer(hub);
    }

    /// Reads once, where nothing is pending and no step waits for memory. A read of no byte is the end of the input.
    fn read<R: Renderer + Drop>(&mut self, hub: &mut Hub<R>)
        requires { self.old.is_open ≡ true }
        ensures serves { Serves (R.page hub.old.0) hub.old.1 self.old hub.new.1 self.new }
        ensures same { R.page hub.new.0 ≡ R.page hub.old.0 }
    {
        if self.pending > 0 || self.phase != Phase::Reads {
            return;
        }
        match self.stream.read(&mut self.piece) {
            Ok(0) => self.phase = Phase::Ends,
            Ok(count) => self.pending = count,
            Err(_) => self.phase = closed(hub, self.id),
        }
    }

    /// Pushes the pending bytes. Where the hub has no room for them they stay pending.
    fn push<R: Renderer + Drop>(&mut self, hub: &mut Hub<R>)
        requires { self.old.is_open ≡ true }
        ensures serves { Serves (R.page hub.old.0) hub.old.1 self.old hub.new.1 self.new }
        ensures same { R.page hub.new.0 ≡ R.page hub.old.0 }
    {
        if self.pending == 0 {
            return;
        }
        match hub.push(self.id, &self.piece[..self.pending]) {
            Ok(()) => self.pending = 0,
            Err(PushError::Memory | PushError::Backlog) => {}
            Err(PushError::NoConnection) => self.phase = closed(hub, self.id),
            Err(PushError::Closed) => self.phase = closed(hub, self.id),
        }
    }

    /// Answers the requests that have come. Each step that sends a reply takes unread bytes, so this ends.
    fn answer<R: Renderer + Drop>(&mut self, hub: &mut Hub<R>)
        requires { self.old.is_open ≡ true }
        ensures serves { Serves (R.page hub.old.0) hub.old.1 self.old hub.new.1 self.new }
        ensures same { R.page hub.new.0 ≡ R.page hub.old.0 }
    {
        'steps: while self.step(hub) {}
    }

    /// One step, and its reply is written. True where another may follow.
    fn step<R: Renderer + Drop>(&mut self, hub: &mut Hub<R>) -> bool
        requires { self.old.is_open ≡ true }
        ensures serves { Serves (R.page hub.old.0) hub.old.1 self.old hub.new.1 self.new }
        ensures same { R.page hub.new.0 ≡ R.page hub.old.0 }
        ensures open { result ≡ true → self.new.is_open ≡ true }
        ensures less { result ≡ true
            → unread_len hub.new.1 self.new.id < unread_len hub.old.1 self.old.id }
    {
        match hub.step(self.id) {
            Ok(Step::Sent(reply)) => {
                if write_all(&mut self.stream, reply.get()) {
                    return true;
                }
                self.phase = closed(hub, self.id);
                false
            }
            Ok(Step::Last(reply)) => {
                let _ = write_all(&mut self.stream, reply.get());
                self.phase = closed(hub, self.id);
                false
            }
            Ok(Step::More) => {
                self.finish(hub);
                false
            }
            Ok(Step::Closed) => {
                self.phase = closed(hub, self.id);
                false
            }
            Err(StepError::NoConnection) => {
                self.phase = closed(hub, self.id);
                false
            }
            Err(StepError::Memory) => {
                self.wait();
                false
            }
        }
    }

    /// All steps are done: a link whose input has ended is closed, and another one may read.
    fn finish<R: Renderer + Drop>(&mut self, hub: &mut Hub<R>)
        requires { self.old.is_open ≡ true }
        ensures serves { ServesOn (R.page hub.old.0) hub.old.1 self.old hub.new.1 self.new }
        ensures same { R.page hub.new.0 ≡ R.page hub.old.0 }
    {
        match self.phase {
            Phase::Ends => self.phase = closed(hub, self.id),
            _ => self.phase = Phase::Reads,
        }
    }

    /// A step found no memory: the next pass reads nothing.
    fn wait(&mut self)
        ensures { self.new ≡ self.old }
    {
        if self.phase == Phase::Reads {
            self.phase = Phase::Waits;
        }
    }
}

/// Drops the connection of a link, which closes by that.
fn closed<R: Renderer + Drop>(hub: &mut Hub<R>, id: ConnId) -> Phase
    ensures phase { result ≡ Phase.Closed }
    ensures world { Happens (R.page hub.old.0) hub.old.1 (disconnect_on id) hub.new.1
        (disconnected hub.old.1 id.0).1 }
    ensures same { R.page hub.new.0 ≡ R.page hub.old.0 }
{
    hub.disconnect(id);
    Phase::Closed
}
