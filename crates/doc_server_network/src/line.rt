//! A connection in memory.

ghost use Rattle.std.specs.Prelude.{◌≡◌, ◌≤◌, ◌↔◌, ◌++◌, Ok, true, false, not, length, take, drop, IfOk, IsErr, OnErr, OnOk, if◌then◌else◌};
ghost use Rattle.doc_server_network.specs.Memories.{IsBegun, IsBehindWrite};
ghost use Rattle.doc_server_network.specs.Memories.{behind_all, behind_read, breaks, called, came_on, ended, gone_on, is_pause, let_go, over, reads, writes};
ghost use Rattle.doc_server_network.specs.Networks.{came_len, took_len};

use crate::came::Came;
use crate::net_fault::NetFault;
use crate::script::Script;
use doc_page_parts::heap::{Heap, Vec};

/// A peer's script, of whose input the first `at` bytes came, and what was handed over to the peer.
#[derive(Drop)]
pub struct Line {
    script: Script,
    at: usize,
    output: Vec<u8>,
    is_paused: bool,
    has_ended: bool,
    is_closed: bool,
    /// Whether a read gave the end, or a call has failed.
    is_over: bool,
}

impl Line {
    /// A connection on which nothing has passed.
    pub fn new(heap: Heap, script: Script) -> Line
        ensures { IsBegun script result }
    {
        Line {
            script,
            at: 0,
            output: Vec::new(heap),
            is_paused: false,
            has_ended: false,
            is_closed: false,
            is_over: false,
        }
    }

    /// Counts a call, and answers whether it may move bytes.
    fn begin(&mut self) -> Result<bool, NetFault>
        ensures breaks { IsErr result ↔ (breaks self.old ≡ true) }
        ensures moves { IfOk result (λ may. may ≡ not (is_pause self.old)) }
        ensures called { OnOk result (self.new ≡ called self.old) }
        ensures fails { OnErr result (self.new ≡ over self.old) }
    {
        if self.is_broken() {
            self.is_over = true;
            return Err(NetFault);
        }
        self.script.calls = self.script.calls.saturating_sub(1);
        self.is_paused = self.script.pauses && !self.is_paused;
        Ok(!self.is_paused)
    }

    /// Reads the next piece.
    pub fn read(&mut self, buf: &mut [u8]) -> Result<Came, NetFault>
        ensures room { length buf.new ≡ length buf.old }
        ensures bound { came_len result ≤ length buf.new }
        ensures breaks { IsErr result ↔ (breaks self.old ≡ true) }
        ensures gives { IfOk result (λ came. came ≡ reads (length buf.old) self.old) }
        ensures came { came_on self.new ≡ came_on self.old ++ take (came_len result) buf.new }
        ensures behind { self.new ≡ behind_read result self.old }
    {
        if !self.begin()? {
            return Ok(Came::Nothing);
        }
        let rest = rest_of(self.script.input.get(), self.at);
        if rest.is_empty() {
            return Ok(self.behind_the_last());
        }
        let count = self.script.piece.min(rest.len()).min(buf.len());
        buf[..count].copy_from_slice(&rest[..count]);
        self.at += count;
        Ok(Came::Bytes(count))
    }

    /// What a read gives where all has come.
    fn behind_the_last(&mut self) -> Came
        ensures gives { result ≡ behind_all self.old }
        ensures over { self.new ≡ (if self.old.script.ends then over self.old else self.old) }
    {
        if !self.script.ends {
            return Came::Nothing;
        }
        self.is_over = true;
        Came::End
    }

    /// Hands over some of the bytes. Without memory for them the call fails.
    pub fn write(&mut self, buf: &[u8]) -> Result<usize, NetFault>
        ensures bound { took_len result ≤ length buf.now }
        ensures breaks { breaks self.old ≡ true → IsErr result }
        ensures takes { IfOk result (λ count. count ≡ writes (length buf.now) self.old) }
        ensures gone { gone_on self.new ≡ gone_on self.old ++ take (took_len result) buf.now }
        ensures behind { IsBehindWrite result self.old self.new }
    {
        if !self.begin()? {
            return Ok(0);
        }
        let count = self.script.budget.min(buf.len());
        match self.output.extend_from_slice(&buf[..count]) {
            Ok(()) => Ok(count),
            Err(_) => {
                self.is_over = true;
                Err(NetFault)
            }
        }
    }

    /// Ends what is written.
    pub fn end(&mut self)
        ensures { self.new ≡ ended self.old }
    {
        self.has_ended = true;
    }

    /// Lets the connection go. What passed on it stays known.
    pub fn close(&mut self)
        ensures { self.new ≡ let_go self.old }
    {
        self.is_closed = true;
    }

    /// A call on it fails.
    pub fn fail(&mut self)
        ensures { self.new ≡ over self.old }
    {
        self.is_over = true;
    }

    /// Whether the next read or write fails.
    pub fn is_broken(&self) -> bool
        ensures { result ≡ breaks self.now }
    {
        self.is_closed || self.script.calls == 0
    }

    /// Whether what is written was ended.
    pub fn has_ended(&self) -> bool
        ensures { result ≡ self.now.has_ended }
    {
        self.has_ended
    }

    /// Whether it was let go.
    pub fn is_closed(&self) -> bool
        ensures { result ≡ self.now.is_closed }
    {
        self.is_closed
    }

    /// All bytes that were handed over.
    pub fn output(&self) -> &[u8]
        ensures { result.now ≡ gone_on self.now }
    {
        self.output.as_slice()
    }
}

/// What stands behind the first so many bytes.
fn rest_of(input: &[u8], at: usize) -> &[u8]
    ensures { result.now ≡ drop at input.now }
{
    match input.get(at..) {
        Some(rest) => rest,
        None => &[],
    }
}
