//! Output to a writer of std.

ghost use Rattle.std.specs.Prelude.{◌≡◌, ◌<◌, length, IfOk};
ghost use Rattle.std.specs.Io.{WritesAtMost};
ghost use Rattle.std.specs.Io.KnownBytes.{Keeps, WriteAppends};
ghost use Rattle.doc_server_streams.specs.Streams.{writer_of, failed_writes};

use crate::output::Output;
use crate::stream_fault::StreamFault;
use std::io::{ErrorKind, Write};

/// How often an interrupted call is tried, so that it ends.
const TRIES: u64 = 0x1_0000_0000;

/// Output to a writer, with the number of writes and flushes that failed.
#[derive(Drop)]
pub struct WriteTo<W> {
    writer: W,
    failures: u64,
    is_flushed: bool,
}

impl<W> WriteTo<W> {
    pub fn new(writer: W) -> WriteTo<W>
        ensures writer { writer_of result ≡ writer }
        ensures none { failed_writes result ≡ 0 }
    {
        WriteTo {
            writer,
            failures: 0,
            is_flushed: false,
        }
    }

    pub fn writer(&self) -> &W
        ensures { result.now ≡ writer_of self.now }
    {
        &self.writer
    }

    pub fn into_writer(self) -> W
        ensures { result ≡ writer_of self }
    {
        self.writer
    }
}

impl<W: Write> Output for WriteTo<W> {
    ghost use Rattle.doc_server_streams.specs.Streams.{writer_of, failed_writes, is_flushed};

    ghost written = { λ output. W.contents (writer_of output) };

    ghost failed = { failed_writes };

    ghost flushed = { is_flushed };

    /// An interrupted write is tried again, 2^32 times at most. It isn't counted. A writer that takes none of some bytes failed.
    fn write(&mut self, buf: &[u8]) -> Result<usize, StreamFault> {
        self.is_flushed = false;
        let result = write_whenever(&mut self.writer, buf);
        if result.is_err() {
            self.failures = self.failures.saturating_add(1);
        }
        result
    }

    /// An interrupted flush is tried again, 2^32 times at most. It isn't counted.
    fn flush(&mut self) -> Result<(), StreamFault> {
        let result = flush_whenever(&mut self.writer);
        self.is_flushed = result.is_ok();
        if result.is_err() {
            self.failures = self.failures.saturating_add(1);
        }
        result
    }
}

/// Writes, again where the write was interrupted.
fn write_whenever<W: Write>(writer: &mut W, buf: &[u8]) -> Result<usize, StreamFault>
    ensures bound { WritesAtMost result buf.now }
    ensures some { IfOk result (λ n. 0 < length buf.now → 0 < n) }
    ensures bytes { WriteAppends (W.contents writer.old) (W.contents writer.new) result buf.now }
{
    'tries: for _ in 0..TRIES {
        match writer.write(buf) {
            Ok(0) if !buf.is_empty() => return Err(StreamFault),
            Ok(count) => return Ok(count),
            Err(e) if e.kind() == ErrorKind::Interrupted => {}
            Err(_) => return Err(StreamFault),
        }
    }
    Err(StreamFault)
}

/// Flushes, again where the flush was interrupted.
fn flush_whenever<W: Write>(writer: &mut W) -> Result<(), StreamFault>
    ensures { Keeps (W.contents writer.old) (W.contents writer.new) }
{
    'tries: for _ in 0..TRIES {
        match writer.flush() {
            Ok(()) => return Ok(()),
            Err(e) if e.kind() == ErrorKind::Interrupted => {}
            Err(_) => return Err(StreamFault),
        }
    }
    Err(StreamFault)
}
