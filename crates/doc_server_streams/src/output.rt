//! Where bytes go.

ghost use Rattle.std.specs.Prelude.{◌≡◌, ◌<◌, ℕ, List, Option, Bool, true, false, length, IfOk, OnOk};
ghost use Rattle.std.specs.Io.{WritesAtMost};
ghost use Rattle.std.specs.Io.KnownBytes.{Keeps, WriteAppends};
ghost use Rattle.doc_server_streams.specs.Streams.{failures_after};

use crate::stream_fault::StreamFault;

/// What can be written.
pub trait Output {
    /// All bytes that were written, where they are known.
    ghost written: { Self → Option (List ℕ) };

    /// How many writes and flushes have failed.
    ghost failed: { Self → ℕ };

    /// Whether all that was written was flushed.
    ghost flushed: { Self → Bool };

    /// Writes some of the bytes, from the front, and answers how many: none only where there is none. A write that fails takes
    /// nothing.
    fn write(&mut self, buf: &[u8]) -> Result<usize, StreamFault>
        ensures bound { WritesAtMost result buf.now }
        ensures some { IfOk result (λ n. 0 < length buf.now → 0 < n) }
        ensures bytes { WriteAppends (written self.old) (written self.new) result buf.now }
        ensures pending { IfOk result (λ n. 0 < n → flushed self.new ≡ false) }
        ensures count { failed self.new ≡ failures_after (failed self.old) result };

    /// Sees to it that all that was written goes where it is to go.
    fn flush(&mut self) -> Result<(), StreamFault>
        ensures bytes { Keeps (written self.old) (written self.new) }
        ensures flushed { OnOk result (flushed self.new ≡ true) }
        ensures count { failed self.new ≡ failures_after (failed self.old) result };
}
