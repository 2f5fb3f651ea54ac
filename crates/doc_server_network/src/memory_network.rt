//! A network in memory, for tests: what comes on each connection is known, and what is handed over is kept.

ghost use Rattle.std.specs.Prelude.{◌≡◌, ◌≤◌, ◌⊎◌, ◌↔◌, ◌++◌, ◌∷◌, [], ℕ, Some, None, drop, is_some, length, option_map, take, IfOk, IsErr, OnErr, OnOk};
ghost use Rattle.doc_server_network.specs.Memories.{Changes, HasLine, IsAcceptedOf, IsBegun, IsCalled, IsLineOf, IsNew, IsSameButGuests, IsSameButLines, IsUntouched, KeepsDoor};
ghost use Rattle.doc_server_network.specs.Memories.{behind_read, breaks, calls_at, ended, found, guests_of, has_one, let_go, line_at, over, reads, told_next, waited, waits_of, without_next, writes};
ghost use Rattle.doc_server_network.specs.Memories.{has_none, memory_came, memory_ended, memory_gone, memory_wakes};
ghost use Rattle.doc_server_network.specs.Networks.{came_len, took_len, Moves, Rests, Stays, StaysBut, TellsLoss, TellsOf};

use crate::accepted::Accepted;
use crate::came::Came;
use crate::guest::Guest;
use crate::line::Line;
use crate::net_fault::NetFault;
use crate::network::Network;
use crate::permit::Permit;
use crate::script::Script;
use crate::told::Told;
use doc_page_parts::failure::Memory;
use doc_page_parts::heap::{BTreeMap, Heap};
use std::collections::VecDeque;
use std::time::Duration;

/// Connections in memory, whose peers do what their scripts say. It tells of a connection behind each call that moved no byte there, and
/// of none else, as a poll that tells of changes alone.
#[derive(Drop)]
pub struct MemoryNetwork {
    heap: Heap,
    /// Who waits to be accepted.
    guests: VecDeque<Guest, Heap>,
    lines: BTreeMap<u64, Line>,
    /// The numbers of those that will be told of.
    waking: VecDeque<u64, Heap>,
    /// How many of them are told of behind this wait.
    due: usize,
    is_knocked: bool,
    /// How many waits are left, behind the last of which standard input has ended.
    waits: u64,
    is_ending: bool,
}

impl MemoryNetwork {
    /// A network on which nothing has passed and nobody waits. Behind so many waits standard input has ended, and the next wait fails.
    pub fn new(heap: Heap, waits: u64) -> MemoryNetwork
        ensures untouched { (k : ℕ) → IsUntouched result k }
        ensures begun { IsNew waits result }
    {
        MemoryNetwork {
            heap,
            guests: VecDeque::new(heap),
            lines: BTreeMap::new(heap),
            waking: VecDeque::new(heap),
            due: 0,
            is_knocked: false,
            waits,
            is_ending: false,
        }
    }

    /// One more who waits to be accepted, behind the others.
    pub fn invite(&mut self, guest: Guest) -> Result<(), Memory>
        ensures last { OnOk result (guests_of self.new ≡ guests_of self.old ++ guest ∷ []) }
        ensures refused { OnErr result (guests_of self.new ≡ guests_of self.old) }
        ensures rests { IsSameButGuests self.old self.new }
        ensures came { Rests (memory_came self.old) (memory_came self.new) }
        ensures gone { Rests (memory_gone self.old) (memory_gone self.new) }
        ensures free { Stays (has_none self.old) (has_none self.new) }
        ensures wakes { Stays (memory_wakes self.old) (memory_wakes self.new) }
    {
        self.guests.push_back(guest)?;
        Ok(())
    }

    /// All bytes that were handed over under this number.
    pub fn handed_over(&self, id: u64) -> &[u8]
        ensures { memory_gone self.now id ≡ Some result.now }
    {
        match self.lines.get(&id) {
            Some(line) => line.output(),
            None => &[],
        }
    }

    /// Whether the connection of this number was let go.
    pub fn is_closed(&self, id: u64) -> bool
        ensures { result ≡ has_one (λ l. l.is_closed) (line_at self.now id) }
    {
        match self.lines.get(&id) {
            Some(line) => line.is_closed(),
            None => false,
        }
    }

    /// Whether what was written under this number was ended.
    pub fn has_ended(&self, id: u64) -> bool
        ensures { result ≡ has_one (λ l. l.has_ended) (line_at self.now id) }
    {
        match self.lines.get(&id) {
            Some(line) => line.has_ended(),
            None => false,
        }
    }

    /// Whether the next call on the connection of this number fails.
    fn is_broken(&self, id: u64) -> bool
        ensures { result ≡ has_one breaks (line_at self.now id) }
    {
        match self.lines.get(&id) {
            Some(line) => line.is_broken(),
            None => false,
        }
    }

    /// Keeps a peer under this number.
    fn keep(&mut self, id: u64, script: Script) -> Accepted
        requires { has_none self.old id }
        ensures comes_to { (result ≡ Accepted.Peer) ⊎ (result ≡ Accepted.Failed) }
        ensures begun { result ≡ Accepted.Peer → HasLine (IsBegun script) (line_at self.new id) }
        ensures door { KeepsDoor self.old self.new }
        ensures wakes { Stays (memory_wakes self.old) (memory_wakes self.new) }
        ensures arms { result ≡ Accepted.Peer → memory_wakes self.new id }
        ensures came { Rests (memory_came self.old) (memory_came self.new) }
        ensures gone { Rests (memory_gone self.old) (memory_gone self.new) }
        ensures free { StaysBut id (has_none self.old) (has_none self.new) }
        ensures ended { StaysBut id (memory_ended self.old) (memory_ended self.new) }
        ensures refused { (result ≡ Accepted.Peer → ⊥) → has_none self.new id }
    {
        if self.waking.reserve(1).is_err() {
            return Accepted::Failed;
        }
        let line = Line::new(self.heap, script);
        if self.lines.insert(id, line).is_err() {
            return Accepted::Failed;
        }
        self.waking.push_back_reserved(id);
        Accepted::Peer
    }

    /// A call on the connection of this number fails.
    fn fail(&mut self, id: u64) -> NetFault
        ensures over { Changes id over self.old self.new }
        ensures rests { IsSameButLines self.old self.new }
        ensures fails { memory_ended self.new id }
        ensures ended { Stays (memory_ended self.old) (memory_ended self.new) }
        ensures wakes { Stays (memory_wakes self.old) (memory_wakes self.new) }
        ensures came { Rests (memory_came self.old) (memory_came self.new) }
        ensures gone { Rests (memory_gone self.old) (memory_gone self.new) }
        ensures free { Stays (has_none self.old) (has_none self.new) }
    {
        if let Some(line) = self.lines.get_mut(&id) {
            line.fail();
        }
        NetFault
    }
}

impl Network for MemoryNetwork {
    ghost use Rattle.std.specs.Prelude.{⊤};
    ghost use Rattle.doc_server_network.specs.Memories.{IsAllTold, memory_came, memory_gone, has_none, memory_ended, memory_wakes};

    ghost came = { memory_came };

    ghost gone = { memory_gone };

    ghost is_free = { has_none };

    ghost wakes = { memory_wakes };

    ghost has_ended = { memory_ended };

    ghost told_all = { IsAllTold };

    ghost made = { λ _ _. ⊤ };

    fn wait(&mut self, _most: Duration) -> Result<(), NetFault>
        ensures fails { IsErr result ↔ (waits_of self.old ≡ 0) }
        ensures found { OnOk result (self.new ≡ waited self.old) }
        ensures rests { OnErr result (self.new ≡ self.old) }
    {
        let Some(left) = self.waits.checked_sub(1) else {
            return Err(NetFault);
        };
        self.waits = left;
        self.is_ending = left == 0;
        self.is_knocked = !self.guests.is_empty();
        self.due = self.waking.len();
        Ok(())
    }

    fn told(&mut self) -> Option<Told>
        ensures next { result ≡ told_next self.old }
        ensures left { found self.new ≡ without_next (found self.old) }
        ensures door { KeepsDoor self.old self.new }
        ensures wakes { (k : ℕ) → (TellsOf result k → ⊥) → memory_wakes self.old k
            → memory_wakes self.new k }
        ensures all { result ≡ None → IsAllTold self.new }
        ensures lost { (k : ℕ) → TellsLoss result k → memory_ended self.new k }
        ensures came { Rests (memory_came self.old) (memory_came self.new) }
        ensures gone { Rests (memory_gone self.old) (memory_gone self.new) }
        ensures ended { Stays (memory_ended self.old) (memory_ended self.new) }
        ensures free { Stays (has_none self.old) (has_none self.new) }
    {
        if self.is_knocked {
            self.is_knocked = false;
            return Some(Told::Door);
        }
        if self.is_ending {
            self.is_ending = false;
            return Some(Told::InputEnds);
        }
        if self.due == 0 {
            return None;
        }
        let id = self.waking.pop_front()?;
        self.due -= 1;
        if self.is_broken(id) {
            let _ = self.fail(id);
            return Some(Told::Connection { id, is_gone: true });
        }
        Some(Told::Connection { id, is_gone: false })
    }

    fn accept(&mut self, id: u64) -> Accepted
        requires { has_none self.old id }
        ensures comes_to { IsAcceptedOf (guests_of self.old) result }
        ensures line { result ≡ Accepted.Peer
            → IsLineOf (guests_of self.old) (line_at self.new id) }
        ensures left { guests_of self.new ≡ drop 1 (guests_of self.old) }
        ensures waits { waits_of self.new ≡ waits_of self.old }
        ensures wakes { StaysBut id (memory_wakes self.old) (memory_wakes self.new) }
        ensures arms { result ≡ Accepted.Peer → memory_wakes self.new id }
        ensures came { Rests (memory_came self.old) (memory_came self.new) }
        ensures gone { Rests (memory_gone self.old) (memory_gone self.new) }
        ensures ended { StaysBut id (memory_ended self.old) (memory_ended self.new) }
        ensures free { StaysBut id (has_none self.old) (has_none self.new) }
        ensures refused { (result ≡ Accepted.Peer → ⊥) → has_none self.new id }
    {
        match self.guests.pop_front() {
            Some(Guest::Peer(script)) => self.keep(id, script),
            Some(Guest::Leaves) => Accepted::Failed,
            Some(Guest::Waits) => Accepted::Rests,
            None => Accepted::Nobody,
        }
    }

    fn read(&mut self, id: u64, buf: &mut [u8]) -> Result<Came, NetFault>
        ensures gives { IfOk result (λ came. Some came
            ≡ calls_at (reads (length buf.old)) (line_at self.old id)) }
        ensures behind { line_at self.new id
            ≡ option_map (behind_read result) (line_at self.old id) }
        ensures door { KeepsDoor self.old self.new }
        ensures room { length buf.new ≡ length buf.old }
        ensures bound { came_len result ≤ length buf.new }
        ensures ends { IfOk result (λ came. came ≡ Came.End → memory_ended self.new id) }
        ensures fails { OnErr result (memory_ended self.new id) }
        ensures wakes { StaysBut id (memory_wakes self.old) (memory_wakes self.new) }
        ensures arms { IfOk result (λ came. came ≡ Came.Nothing → memory_wakes self.new id) }
        ensures came { Moves (memory_came self.old) (memory_came self.new) id
            (take (came_len result) buf.new) }
        ensures gone { Rests (memory_gone self.old) (memory_gone self.new) }
        ensures ended { Stays (memory_ended self.old) (memory_ended self.new) }
        ensures free { Stays (has_none self.old) (has_none self.new) }
    {
        if self.waking.reserve(1).is_err() {
            return Err(self.fail(id));
        }
        let Some(line) = self.lines.get_mut(&id) else {
            return Err(NetFault);
        };
        let came = line.read(buf)?;
        if came == Came::Nothing {
            self.waking.push_back_reserved(id);
        }
        Ok(came)
    }

    fn write(&mut self, _permit: &Permit<'_>, id: u64, buf: &[u8]) -> Result<usize, NetFault>
        ensures takes { IfOk result (λ count. Some count
            ≡ calls_at (writes (length buf.now)) (line_at self.old id)) }
        ensures called { OnOk result (IsCalled (line_at self.old id) (line_at self.new id)) }
        ensures door { KeepsDoor self.old self.new }
        ensures bound { took_len result ≤ length buf.now }
        ensures fails { OnErr result (memory_ended self.new id) }
        ensures wakes { StaysBut id (memory_wakes self.old) (memory_wakes self.new) }
        ensures arms { IfOk result (λ count. count ≡ 0 → memory_wakes self.new id) }
        ensures gone { Moves (memory_gone self.old) (memory_gone self.new) id
            (take (took_len result) buf.now) }
        ensures came { Rests (memory_came self.old) (memory_came self.new) }
        ensures ended { Stays (memory_ended self.old) (memory_ended self.new) }
        ensures free { Stays (has_none self.old) (has_none self.new) }
    {
        if self.waking.reserve(1).is_err() {
            return Err(self.fail(id));
        }
        let Some(line) = self.lines.get_mut(&id) else {
            return Err(NetFault);
        };
        let count = line.write(buf)?;
        if count == 0 {
            self.waking.push_back_reserved(id);
        }
        Ok(count)
    }

    fn end(&mut self, id: u64) -> bool
        ensures done { result ≡ is_some (line_at self.old id) }
        ensures ends { Changes id ended self.old self.new }
        ensures rests { IsSameButLines self.old self.new }
        ensures wakes { Stays (memory_wakes self.old) (memory_wakes self.new) }
        ensures came { Rests (memory_came self.old) (memory_came self.new) }
        ensures gone { Rests (memory_gone self.old) (memory_gone self.new) }
        ensures ended { Stays (memory_ended self.old) (memory_ended self.new) }
        ensures free { Stays (has_none self.old) (has_none self.new) }
    {
        let Some(line) = self.lines.get_mut(&id) else {
            return false;
        };
        line.end();
        true
    }

    fn close(&mut self, id: u64)
        ensures lets_go { Changes id let_go self.old self.new }
        ensures rests { IsSameButLines self.old self.new }
        ensures wakes { StaysBut id (memory_wakes self.old) (memory_wakes self.new) }
        ensures came { Rests (memory_came self.old) (memory_came self.new) }
        ensures gone { Rests (memory_gone self.old) (memory_gone self.new) }
        ensures ended { Stays (memory_ended self.old) (memory_ended self.new) }
        ensures free { Stays (has_none self.old) (has_none self.new) }
    {
        let Some(line) = self.lines.get_mut(&id) else {
            return;
        };
        line.close();
    }
}
