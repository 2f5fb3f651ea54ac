//! A stream over memory, whose calls move pieces and may fail.

ghost use Rattle.std.specs.Prelude.{◌≡◌, ◌==◌, [], Some};
ghost use Rattle.doc_server_streams.specs.Streams.{one_more};
ghost use Rattle.doc_server_streams.specs.MemoryStreams.{unread_in, written_to, failures_of, is_stalled};

use crate::stream::Stream;
use crate::stream_fault::StreamFault;
use doc_page_parts::bytes::Bytes;
use doc_page_parts::heap::{Heap, Vec};

/// Bytes that are read, and those that were written. A call moves one piece at most.
#[derive(Drop)]
pub struct MemoryStream {
    input: Bytes,
    at: usize,
    output: Vec<u8>,
    piece: usize,
    reads: Calls,
    writes: Calls,
    failures: u64,
}

/// How many calls there were, and which of them fails, counted from 1.
#[derive(Clone, Copy, Debug)]
struct Calls {
    made: u64,
    fails_at: Option<u64>,
}

impl Calls {
    /// Counts one call, and answers whether it fails.
    fn count(&mut self) -> bool {
        self.made = self.made.saturating_add(1);
        self.fails_at == Some(self.made)
    }
}

impl MemoryStream {
    /// A stream of this input. A call moves `piece` bytes at most, and the read and the write of these numbers, counted from 1, fail.
    pub fn new(
        heap: Heap,
        input: Bytes,
        piece: usize,
        fail_read: Option<u64>,
        fail_write: Option<u64>,
    ) -> MemoryStream
        ensures unread { unread_in result ≡ Some input }
        ensures written { written_to result ≡ Some [] }
        ensures none { failures_of result ≡ 0 }
        ensures stalls { is_stalled result ≡ (piece == 0) }
    {
        MemoryStream {
            input,
            at: 0,
            output: Vec::new(heap),
            piece,
            reads: Calls {
                made: 0,
                fails_at: fail_read,
            },
            writes: Calls {
                made: 0,
                fails_at: fail_write,
            },
            failures: 0,
        }
    }

    /// All bytes that were written.
    pub fn written(&self) -> &[u8]
        ensures { Some result.now ≡ written_to self.now }
    {
        self.output.as_slice()
    }

    /// Counts a failed call.
    fn fail(&mut self) -> StreamFault
        ensures { self.new ≡ record self.old { failures = one_more self.old.failures } }
    {
        self.failures = self.failures.saturating_add(1);
        StreamFault
    }
}

impl Stream for MemoryStream {
    ghost use Rattle.doc_server_streams.specs.MemoryStreams.{unread_in, written_to, failures_of, is_stalled};

    ghost unread = { unread_in };

    ghost written = { written_to };

    ghost failed = { failures_of };

    ghost stalls = { is_stalled };

    fn read(&mut self, buf: &mut [u8]) -> Result<usize, StreamFault> {
        if self.reads.count() {
            return Err(self.fail());
        }
        let Some(rest) = self.input.get().get(self.at..) else {
            return Ok(0);
        };
        let count = self.piece.min(rest.len()).min(buf.len());
        buf[..count].copy_from_slice(&rest[..count]);
        self.at += count;
        Ok(count)
    }

    /// A write that finds no memory fails.
    fn write(&mut self, buf: &[u8]) -> Result<usize, StreamFault> {
        if self.writes.count() {
            return Err(self.fail());
        }
        let count = self.piece.min(buf.len());
        match self.output.extend_from_slice(&buf[..count]) {
            Ok(()) => Ok(count),
            Err(_) => Err(self.fail()),
        }
    }

    fn failures(&self) -> u64 {
        self.failures
    }
}
