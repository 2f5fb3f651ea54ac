//! Streams over memory, as a line writes them.

ghost use Rattle.std.specs.Prelude.{◌≡◌, IfOk};
ghost use Rattle.doc_server_streams.specs.MemoryStreams.{failures_of};

use doc_page_parts::bytes::Bytes;
use doc_page_parts::failure::Memory;
use doc_page_parts::heap::Heap;
use doc_server_streams::memory_stream::MemoryStream;

/// What a stream is made of.
#[derive(Clone, Copy)]
pub struct Streamed<'a> {
    piece: usize,
    fail_read: Option<u64>,
    fail_write: Option<u64>,
    pub text: &'a str,
}

impl Streamed<'_> {
    /// What `PIECE READ WRITE TEXT` gives: a call moves so many bytes at most, and the read and the write of these numbers fail (0: none).
    pub fn read(given: &str) -> Option<Streamed<'_>> {
        let (piece, given) = given.split_once(' ')?;
        let (fail_read, given) = given.split_once(' ')?;
        let (fail_write, text) = given.split_once(' ')?;
        Some(Streamed {
            piece: piece.parse::<usize>().ok()?,
            fail_read: number(fail_read)?,
            fail_write: number(fail_write)?,
            text,
        })
    }

    /// The stream.
    pub fn stream(self, heap: Heap) -> Result<MemoryStream, Memory>
        ensures { IfOk result (λ stream. failures_of stream ≡ 0) }
    {
        let input = Bytes::copy_of(heap, self.text.as_bytes())?;
        Ok(MemoryStream::new(heap, input, self.piece, self.fail_read, self.fail_write))
    }
}

/// A number of a call, of which 0 is none.
fn number(text: &str) -> Option<Option<u64>> {
    match text.parse::<u64>().ok()? {
        0 => Some(None),
        number => Some(Some(number)),
    }
}
