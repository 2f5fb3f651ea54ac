//! A network: connections by their numbers, and calls that never wait but one.

ghost use Rattle.std.specs.Prelude.{◌≡◌, ◌≤◌, ℕ, List, Option, None, length, take, IfOk, OnErr};
ghost use Rattle.doc_server_network.specs.Networks.{came_len, took_len, Accepts, Call, Closes, Ends, Moves, Reads, Recalls, Rests, Stays, StaysBut, Tells, TellsLoss, TellsOf, Waits, Writes};

use crate::accepted::Accepted;
use crate::came::Came;
use crate::net_fault::NetFault;
use crate::permit::Permit;
use crate::told::Told;
use std::time::Duration;

/// Connections by their numbers, each of which is given once. A call moves bytes on the connection that it names, and on no other.
pub trait Network {
    /// All bytes that came on the connection of a number, where they are known.
    ghost came: { Self → ℕ → Option (List ℕ) };

    /// All bytes that were handed over there, where they are known.
    ghost gone: { Self → ℕ → Option (List ℕ) };

    /// Whether a number has had no connection yet.
    ghost is_free: { Self → ℕ → Type 0 };

    /// Whether the network will tell of a connection once a read or a write may go on there.
    ghost wakes: { Self → ℕ → Type 0 };

    /// Whether a connection has ended: nothing comes any more, or a call on it has failed.
    ghost has_ended: { Self → ℕ → Type 0 };

    /// Whether all that the last wait has found was told.
    ghost told_all: { Self → Type 0 };

    /// Whether a call was made, and answered so.
    ghost made: { Self → Call → Type 0 };

    /// Waits for so long at most, until there is something to tell. No other call waits.
    fn wait(&mut self, most: Duration) -> Result<(), NetFault>
        ensures wakes { Stays (wakes self.old) (wakes self.new) }
        ensures came { Rests (came self.old) (came self.new) }
        ensures gone { Rests (gone self.old) (gone self.new) }
        ensures ended { Stays (has_ended self.old) (has_ended self.new) }
        ensures free { Stays (is_free self.old) (is_free self.new) }
        ensures call { made self.new (Waits result) }
        ensures calls { Recalls (made self.old) (made self.new) };

    /// The next of what the wait has found, until nothing is left of it.
    fn told(&mut self) -> Option<Told>
        ensures wakes { (k : ℕ) → (TellsOf result k → ⊥) → wakes self.old k → wakes self.new k }
        ensures all { result ≡ None → told_all self.new }
        ensures lost { (k : ℕ) → TellsLoss result k → has_ended self.new k }
        ensures came { Rests (came self.old) (came self.new) }
        ensures gone { Rests (gone self.old) (gone self.new) }
        ensures ended { Stays (has_ended self.old) (has_ended self.new) }
        ensures free { Stays (is_free self.old) (is_free self.new) }
        ensures call { made self.new (Tells result) }
        ensures calls { Recalls (made self.old) (made self.new) };

    /// Accepts the next peer under this number, where one waits.
    fn accept(&mut self, id: u64) -> Accepted
        requires { is_free self.old id }
        ensures wakes { StaysBut id (wakes self.old) (wakes self.new) }
        ensures arms { result ≡ Accepted.Peer → wakes self.new id }
        ensures came { Rests (came self.old) (came self.new) }
        ensures gone { Rests (gone self.old) (gone self.new) }
        ensures ended { StaysBut id (has_ended self.old) (has_ended self.new) }
        ensures free { StaysBut id (is_free self.old) (is_free self.new) }
        ensures refused { (result ≡ Accepted.Peer → ⊥) → is_free self.new id }
        ensures call { made self.new (Accepts id result) }
        ensures calls { Recalls (made self.old) (made self.new) };

    /// Reads some bytes of that connection into the front of the buffer. A read that fails takes nothing.
    fn read(&mut self, id: u64, buf: &mut [u8]) -> Result<Came, NetFault>
        ensures room { length buf.new ≡ length buf.old }
        ensures bound { came_len result ≤ length buf.new }
        ensures ends { IfOk result (λ came. came ≡ Came.End → has_ended self.new id) }
        ensures fails { OnErr result (has_ended self.new id) }
        ensures wakes { StaysBut id (wakes self.old) (wakes self.new) }
        ensures arms { IfOk result (λ came. came ≡ Came.Nothing → wakes self.new id) }
        ensures came { Moves (came self.old) (came self.new) id (take (came_len result) buf.new) }
        ensures gone { Rests (gone self.old) (gone self.new) }
        ensures ended { Stays (has_ended self.old) (has_ended self.new) }
        ensures free { Stays (is_free self.old) (is_free self.new) }
        ensures call { made self.new (Reads id result) }
        ensures calls { Recalls (made self.old) (made self.new) };

    /// Hands over some of the bytes, from the front, on that connection, and answers how many, none where it takes none yet. A write
    /// that fails hands over nothing. Who has a permit may hand over.
    fn write(&mut self, permit: &Permit<'_>, id: u64, buf: &[u8]) -> Result<usize, NetFault>
        ensures bound { took_len result ≤ length buf.now }
        ensures fails { OnErr result (has_ended self.new id) }
        ensures wakes { StaysBut id (wakes self.old) (wakes self.new) }
        ensures arms { IfOk result (λ count. count ≡ 0 → wakes self.new id) }
        ensures gone { Moves (gone self.old) (gone self.new) id (take (took_len result) buf.now) }
        ensures came { Rests (came self.old) (came self.new) }
        ensures ended { Stays (has_ended self.old) (has_ended self.new) }
        ensures free { Stays (is_free self.old) (is_free self.new) }
        ensures call { made self.new (Writes id result) }
        ensures calls { Recalls (made self.old) (made self.new) };

    /// Ends what is written on that connection, so that its peer sees the end behind the last byte. True: it was done.
    fn end(&mut self, id: u64) -> bool
        ensures wakes { Stays (wakes self.old) (wakes self.new) }
        ensures came { Rests (came self.old) (came self.new) }
        ensures gone { Rests (gone self.old) (gone self.new) }
        ensures ended { Stays (has_ended self.old) (has_ended self.new) }
        ensures free { Stays (is_free self.old) (is_free self.new) }
        ensures call { made self.new (Ends id result) }
        ensures calls { Recalls (made self.old) (made self.new) };

    /// Lets a connection go.
    fn close(&mut self, id: u64)
        ensures wakes { StaysBut id (wakes self.old) (wakes self.new) }
        ensures came { Rests (came self.old) (came self.new) }
        ensures gone { Rests (gone self.old) (gone self.new) }
        ensures ended { Stays (has_ended self.old) (has_ended self.new) }
        ensures free { Stays (is_free self.old) (is_free self.new) }
        ensures call { made self.new (Closes id) }
        ensures calls { Recalls (made self.old) (made self.new) };
}
