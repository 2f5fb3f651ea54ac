//! Where bytes come from.

ghost use Rattle.std.specs.Prelude.{◌≡◌, ℕ, List, Option};
ghost use Rattle.std.specs.Io.{ReadsAtMost};
ghost use Rattle.std.specs.Io.KnownBytes.{ReadConsumes};
ghost use Rattle.doc_server_streams.specs.Streams.{failures_after};

use crate::stream_fault::StreamFault;

/// What can be read.
pub trait Input {
    /// The bytes that reads will give from here on, where they are known.
    ghost unread: { Self → Option (List ℕ) };

    /// How many reads have failed.
    ghost failed: { Self → ℕ };

    /// Reads some bytes into the front of the buffer, and answers how many: none only at the end of the input, or where the buffer
    /// has no room. A read that fails takes nothing.
    fn read(&mut self, buf: &mut [u8]) -> Result<usize, StreamFault>
        ensures bound { ReadsAtMost result buf.new }
        ensures bytes { ReadConsumes (unread self.old) (unread self.new) result buf.new }
        ensures count { failed self.new ≡ failures_after (failed self.old) result };
}
