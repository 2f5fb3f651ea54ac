//! What is read from a peer and written to it.

ghost use Rattle.std.specs.Prelude.{◌≡◌, ◌<◌, ℕ, List, Option, Bool, true, length, IfOk};
ghost use Rattle.std.specs.Io.{ReadsAtMost, WritesAtMost};
ghost use Rattle.std.specs.Io.KnownBytes.{WriteAppends};
ghost use Rattle.doc_server_streams.specs.Streams.{failures_after};
ghost use Rattle.doc_server_streams.specs.Moves.{ReadTakes, IsDry};

use crate::stream_fault::StreamFault;

/// A stream, used until the first call of it that fails.
pub trait Stream {
    /// The bytes that reads will give from here on, where they are known.
    ghost unread: { Self → Option (List ℕ) };

    /// All bytes that were written, where they are known.
    ghost written: { Self → Option (List ℕ) };

    /// How many reads and writes have failed.
    ghost failed: { Self → ℕ };

    /// Whether a call may move no byte although there are some.
    ghost stalls: { Self → Bool };

    /// Reads some bytes into the front of the buffer, and answers how many. None stands for the end of the input. A read that fails
    /// takes nothing.
    fn read(&mut self, buf: &mut [u8]) -> Result<usize, StreamFault>
        requires { failed self.old ≡ 0 }
        ensures bound { ReadsAtMost result buf.new }
        ensures bytes { ReadTakes (unread self.old) (unread self.new) result buf.new }
        ensures end { IfOk result
            (λ n. n ≡ 0 → 0 < length buf.new → IsDry (unread self.new) (stalls self.old)) }
        ensures written { written self.new ≡ written self.old }
        ensures stalls { stalls self.new ≡ stalls self.old }
        ensures count { failed self.new ≡ failures_after (failed self.old) result };

    /// Writes some of the bytes, from the front, and answers how many. A failed write takes none.
    fn write(&mut self, buf: &[u8]) -> Result<usize, StreamFault>
        requires { failed self.old ≡ 0 }
        ensures bound { WritesAtMost result buf.now }
        ensures bytes { WriteAppends (written self.old) (written self.new) result buf.now }
        ensures some { IfOk result
            (λ n. n ≡ 0 → 0 < length buf.now → stalls self.old ≡ true) }
        ensures unread { unread self.new ≡ unread self.old }
        ensures stalls { stalls self.new ≡ stalls self.old }
        ensures count { failed self.new ≡ failures_after (failed self.old) result };

    /// How many reads and writes have failed.
    fn failures(&self) -> u64
        ensures { result ≡ failed self.now };
}
