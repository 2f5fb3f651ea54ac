//! Input from a reader of std.

ghost use Rattle.std.specs.Prelude.{◌≡◌};
ghost use Rattle.std.specs.Io.{ReadsAtMost};
ghost use Rattle.std.specs.Io.KnownBytes.{ReadConsumes};
ghost use Rattle.doc_server_streams.specs.Streams.{reader_of, failed_reads};

use crate::input::Input;
use crate::stream_fault::StreamFault;
use std::io::{ErrorKind, Read};

/// How often an interrupted read is tried, so that a read ends.
const TRIES: u64 = 0x1_0000_0000;

/// Input from a reader, with the number of reads that failed.
#[derive(Drop)]
pub struct ReadFrom<R> {
    reader: R,
    failures: u64,
}

impl<R> ReadFrom<R> {
    pub fn new(reader: R) -> ReadFrom<R>
        ensures reader { reader_of result ≡ reader }
        ensures none { failed_reads result ≡ 0 }
    {
        ReadFrom {
            reader,
            failures: 0,
        }
    }

    pub fn reader(&self) -> &R
        ensures { result.now ≡ reader_of self.now }
    {
        &self.reader
    }
}

impl<R: Read> Input for ReadFrom<R> {
    ghost use Rattle.doc_server_streams.specs.Streams.{reader_of, failed_reads};

    ghost unread = { λ input. R.remaining (reader_of input) };

    ghost failed = { failed_reads };

    /// An interrupted read is tried again, 2^32 times at most. It isn't counted.
    fn read(&mut self, buf: &mut [u8]) -> Result<usize, StreamFault> {
        let result = read_whenever(&mut self.reader, buf);
        if result.is_err() {
            self.failures = self.failures.saturating_add(1);
        }
        result
    }
}

/// Reads, again where the read was interrupted.
fn read_whenever<R: Read>(reader: &mut R, buf: &mut [u8]) -> Result<usize, StreamFault>
    ensures bound { ReadsAtMost result buf.new }
    ensures bytes { ReadConsumes (R.remaining reader.old) (R.remaining reader.new) result buf.new }
{
    'tries: for _ in 0..TRIES {
        match reader.read(buf) {
            Ok(count) => return Ok(count),
            Err(e) if e.kind() == ErrorKind::Interrupted => {}
            Err(_) => return Err(StreamFault),
        }
    }
    Err(StreamFault)
}
