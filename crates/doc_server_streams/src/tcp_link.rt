//! A stream over TCP. Of its bytes nothing is known.

ghost use Rattle.std.specs.Prelude.{◌≡◌};
ghost use Rattle.std.specs.Io.{ReadsAtMost, WritesAtMost};
ghost use Rattle.doc_server_streams.specs.TcpLinks.{tcp_failures};

use crate::stream::Stream;
use crate::stream_fault::StreamFault;
use std::io::{ErrorKind, Read, Write};
use std::net::TcpStream;

/// How often an interrupted call is tried, so that it ends.
const TRIES: u64 = 0x1_0000_0000;

/// A TCP stream, with the number of calls that failed.
#[derive(Drop)]
pub struct TcpLink {
    stream: TcpStream,
    failures: u64,
}

impl TcpLink {
    /// A stream that none of the calls has failed of yet.
    pub fn new(stream: TcpStream) -> TcpLink
        ensures { tcp_failures result ≡ 0 }
    {
        TcpLink {
            stream,
            failures: 0,
        }
    }
}

impl Stream for TcpLink {
    ghost use Rattle.std.specs.Prelude.{None, true};
    ghost use Rattle.doc_server_streams.specs.TcpLinks.{tcp_failures};

    ghost unread = { λ _. None };

    ghost written = { λ _. None };

    ghost failed = { tcp_failures };

    ghost stalls = { λ _. true };

    /// An interrupted read is tried again, 2^32 times at most. It isn't counted.
    fn read(&mut self, buf: &mut [u8]) -> Result<usize, StreamFault> {
        let result = read_whenever(&mut self.stream, buf);
        if result.is_err() {
            self.failures = self.failures.saturating_add(1);
        }
        result
    }

    /// An interrupted write is tried again, 2^32 times at most. It isn't counted.
    fn write(&mut self, buf: &[u8]) -> Result<usize, StreamFault> {
        let result = write_whenever(&mut self.stream, buf);
        if result.is_err() {
            self.failures = self.failures.saturating_add(1);
        }
        result
    }

    fn failures(&self) -> u64 {
        self.failures
    }
}

/// Reads, again where the read was interrupted.
fn read_whenever(stream: &mut TcpStream, buf: &mut [u8]) -> Result<usize, StreamFault>
    ensures { ReadsAtMost result buf.new }
{
    'tries: for _ in 0..TRIES {
        match stream.read(buf) {
            Ok(count) => return Ok(count),
            Err(e) if e.kind() == ErrorKind::Interrupted => {}
            Err(_) => return Err(StreamFault),
        }
    }
    Err(StreamFault)
}

/// Writes, again where the write was interrupted.
fn write_whenever(stream: &mut TcpStream, buf: &[u8]) -> Result<usize, StreamFault>
    ensures { WritesAtMost result buf.now }
{
    'tries: for _ in 0..TRIES {
        match stream.write(buf) {
            Ok(count) => return Ok(count),
            Err(e) if e.kind() == ErrorKind::Interrupted => {}
            Err(_) => return Err(StreamFault),
        }
    }
    Err(StreamFault)
}
