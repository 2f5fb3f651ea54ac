//! The reader of a body whose bytes come bit by bit.

ghost use Rattle.std.specs.Prelude.{◌≡◌, ℕ, List, IfOk, OnErr};
ghost use Rattle.doc_http_bodies.specs.Readings.{reading_of, reading_by as by_extent, IsWhole};
ghost use Rattle.doc_http_bodies.specs.declared.framing.Framing.TheVariants as framings;
ghost use Rattle.doc_http_bodies.specs.KnowledgeSteps.{KnowsOf, framing_of};

use crate::extent::Extent;
use crate::fault::Fault;
use crate::framing::Framing;
use crate::gathering::gather;
use crate::slices::front;
use crate::stage::{Stage, advance};
use doc_page_parts::bytes::Bytes;
use doc_page_parts::failure::Memory;
use doc_page_parts::heap::Heap;

/// How many bytes a chunked body may take, with its sizes and its trailer.
pub const ENCODED_LIMIT: usize = 2097152;

/// What the bytes behind a head come to.
#[derive(Debug, Drop)]
pub enum Reading {
    /// The body doesn't end yet.
    More,
    /// There is no body that can be read.
    Fault(Fault),
    /// The body, which takes the first `used` bytes.
    Whole { used: usize, body: Bytes },
}

/// The reader of one body. It keeps no bytes, but how far it looked at them, and looks at none a second time, but
/// where it copies the data of a whole body.
#[derive(Clone, Copy)]
pub struct BodyReader {
    framing: Framing,
    stage: Stage,
}

impl BodyReader {
    /// A reader that saw no bytes.
    pub fn new(framing: Framing) -> Self
        ensures framing { framing_of result ≡ framing }
        ensures knows { (bytes : List ℕ) → KnowsOf result bytes }
    {
        BodyReader {
            framing,
            stage: Stage::Line {
                start: 0,
                searched: 0,
                total: 0,
            },
        }
    }

    /// What the bytes behind the head come to. Each call passes all of them, from the first on: those that the last call
    /// passed, and what came since.
    ///
    /// Faults of a chunked body (RFC 9112, section 7.1): malformed where a size line is not 1 to 8 hexadecimal digits, with
    /// an extension or without, or takes more than 256 bytes, or where no CR LF stands behind a chunk's data; too large
    /// where the sizes add up to more than 1,048,576, and where the body neither ends nor is malformed in its first
    /// 2,097,152 bytes. A trailer is not read.
    ///
    /// The time is linear in the bytes that came since, but for the one copy of a whole body. Memory is taken for that copy
    /// alone; where there is none, the reader stays as it was, and the call may be made again.
    pub fn read(&mut self, heap: Heap, bytes: &[u8]) -> Result<Reading, Memory>
        requires { KnowsOf self.old bytes.now }
        ensures found { IfOk result
            (λ reading. reading ≡ reading_of (framing_of self.old) bytes.now) }
        ensures framing { framing_of self.new ≡ framing_of self.old }
        ensures knows { KnowsOf self.new bytes.now }
        ensures memory { OnErr result (IsWhole (reading_of (framing_of self.old) bytes.now)) }
        ensures unchanged { OnErr result (self.new ≡ self.old) }
    {
        match self.framing {
            Framing::Sized(size) => read_sized(heap, bytes, size),
            Framing::Chunked => self.read_chunks(heap, bytes),
        }
    }

    /// The same where the body is chunked.
    fn read_chunks(&mut self, heap: Heap, bytes: &[u8]) -> Result<Reading, Memory>
        requires { KnowsOf self.old bytes.now }
        ensures found { IfOk result (λ reading. reading ≡ reading_of framings.Chunked bytes.now) }
        ensures framing { framing_of self.new ≡ framing_of self.old }
        ensures knows { KnowsOf self.new bytes.now }
        ensures memory { OnErr result (IsWhole (reading_of framings.Chunked bytes.now)) }
        ensures unchanged { OnErr result (self.new ≡ self.old) }
    {
        let is_full = bytes.len() >= ENCODED_LIMIT;
        let window = front(bytes, ENCODED_LIMIT);
        let (stage, extent) = advance(self.stage, window);
        let reading = reading_by(heap, window, is_full, extent)?;
        self.stage = stage;
        Ok(reading)
    }
}

/// What the bytes come to, where so many are the body.
#[tactic(auto, unfolding(crate::specs::Readings::reading_of))]
fn read_sized(heap: Heap, bytes: &[u8], size: usize) -> Result<Reading, Memory>
    ensures found { IfOk result (λ reading. reading ≡ reading_of (framings.Sized size) bytes.now) }
    ensures memory { OnErr result (IsWhole (reading_of (framings.Sized size) bytes.now)) }
{
    if bytes.len() < size {
        return Ok(Reading::More);
    }
    Ok(Reading::Whole {
        used: size,
        body: Bytes::copy_of(heap, &bytes[..size])?,
    })
}

/// What the bytes come to that an encoded body may take, of which all came or not.
fn reading_by(heap: Heap, window: &[u8], is_full: bool, extent: Extent) -> Result<Reading, Memory>
    ensures found { IfOk result (λ reading. reading ≡ by_extent window.now is_full extent) }
    ensures memory { OnErr result (IsWhole (by_extent window.now is_full extent)) }
{
    match extent {
        Extent::More if is_full => Ok(Reading::Fault(Fault::TooLarge)),
        Extent::More => Ok(Reading::More),
        Extent::Fault(fault) => Ok(Reading::Fault(fault)),
        Extent::Whole { used, len } => Ok(Reading::Whole {
            used,
            body: gather(heap, window, len)?,
        }),
    }
}
