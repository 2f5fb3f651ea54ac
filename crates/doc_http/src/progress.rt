//! How far the reading of unread bytes came.

ghost use Rattle.std.specs.Prelude.{◌≡◌, ℕ, List, take, false, IfOk, OnErr};
ghost use Rattle.doc_http.specs.Heads.{head_limit, head_span_of};
ghost use Rattle.doc_http.specs.KnowledgeSteps.{CameTo, IsAtBody, Knows};
ghost use Rattle.doc_http.specs.ProgressSteps.{CameToReading};
ghost use Rattle.doc_http.specs.Requests.{IsNext, BeginsWithRequest};
ghost use Rattle.doc_http.specs.declared.head.HeadSpan.TheVariants as spans;
ghost use Rattle.doc_http.specs.declared.request.Next.TheVariants as nexts;

use crate::building::{framing_of, is_bare, next_read};
use crate::head::{HeadSearch, HeadSpan, find_head, good_head_spans};
use crate::request::Next;
use doc_http_bodies::reader::{BodyReader, Reading};
use doc_page_parts::failure::Memory;
use doc_page_parts::heap::Heap;
use httparse::spans::EMPTY_HEADER_SPAN;

/// How far the reading of unread bytes came. It keeps none of them.
#[derive(Clone, Copy)]
pub enum Progress {
    /// No head ends yet.
    Head(HeadSearch),
    /// The head lies there, and was read; the body behind it doesn't end yet.
    Body {
        start: usize,
        end: usize,
        reader: BodyReader,
    },
}

impl Progress {
    /// Nothing was looked at.
    pub fn new() -> Self
        ensures { (bytes : List ℕ) → Knows result bytes }
    {
        Progress::Head(HeadSearch::new())
    }

    /// What the bytes begin with. Each call passes all of them: those that the last call passed, and what
    /// came since; the time is linear in what came since, and in the head where the request is whole.
    pub fn next(&mut self, heap: Heap, bytes: &[u8]) -> Result<Next, Memory>
        requires { Knows self.old bytes.now }
        ensures found { IfOk result (λ next. IsNext bytes.now next) }
        ensures memory { OnErr result (BeginsWithRequest bytes.now) }
        ensures knows { Knows self.new bytes.now }
    {
        match *self {
            Progress::Head(search) => self.from_head(heap, bytes, search),
            Progress::Body { start, end, reader } => self.from_body(
                heap, bytes, start, end, reader,
            ),
        }
    }

    /// The same where no head ended.
    fn from_head(&mut self, heap: Heap, bytes: &[u8], search: HeadSearch) -> Result<Next, Memory>
        requires came { CameTo search (take head_limit bytes.now) }
        requires knows { Knows self.old bytes.now }
        ensures found { IfOk result (λ next. IsNext bytes.now next) }
        ensures memory { OnErr result (BeginsWithRequest bytes.now) }
        ensures knows { Knows self.new bytes.now }
    {
        let (span, search) = find_head(bytes, search);
        match span {
            HeadSpan::Unfinished => {
                *self = Progress::Head(search);
                Ok(Next::More)
            }
            HeadSpan::TooLong => Ok(no_head(431)),
            HeadSpan::At { start, end } => self.at_head(heap, bytes, start, end),
        }
    }

    /// The same where the head lies there.
    fn at_head(
        &mut self,
        heap: Heap,
        bytes: &[u8],
        start: usize,
        end: usize,
    ) -> Result<Next, Memory>
        requires lies { head_span_of bytes.now ≡ spans.At start end }
        requires knows { Knows self.old bytes.now }
        ensures found { IfOk result (λ next. IsNext bytes.now next) }
        ensures memory { OnErr result (BeginsWithRequest bytes.now) }
        ensures knows { Knows self.new bytes.now }
    {
        let text = &bytes[start..end];
        let mut headers = [EMPTY_HEADER_SPAN; 64];
        let Some(spans) = good_head_spans(text, &mut headers) else {
            return Ok(no_head(400));
        };
        let headers = &headers[..spans.headers];
        match framing_of(text, headers, spans.version == 0) {
            Err(fault) => Ok(Next::Fault {
                code: fault.code(),
                bare: is_bare(text, &spans),
            }),
            Ok(framing) => {
                let mut reader = BodyReader::new(framing);
                let reading = reader.read(heap, &bytes[end..])?;
                *self = Progress::Body { start, end, reader };
                next_read(heap, text, &spans, headers, end, reading)
            }
        }
    }

    /// The same where the head was read.
    fn from_body(
        &mut self,
        heap: Heap,
        bytes: &[u8],
        start: usize,
        end: usize,
        reader: BodyReader,
    ) -> Result<Next, Memory>
        requires at { IsAtBody start end reader bytes.now }
        requires knows { Knows self.old bytes.now }
        ensures found { IfOk result (λ next. IsNext bytes.now next) }
        ensures memory { OnErr result (BeginsWithRequest bytes.now) }
        ensures knows { Knows self.new bytes.now }
    {
        let mut reader = reader;
        let reading = reader.read(heap, &bytes[end..])?;
        *self = Progress::Body { start, end, reader };
        match reading {
            Reading::More => Ok(Next::More),
            decided => finish(heap, bytes, start, end, decided),
        }
    }
}

/// A fault of bytes whose head can't be read.
fn no_head(code: u16) -> Next
    ensures { result ≡ nexts.Fault code false }
{
    Next::Fault { code, bare: false }
}

/// What bytes begin with whose good head lies there, by what the bytes behind it came to.
fn finish(
    heap: Heap,
    bytes: &[u8],
    start: usize,
    end: usize,
    reading: Reading,
) -> Result<Next, Memory>
    requires { CameToReading start end reading bytes.now }
    ensures found { IfOk result (λ next. IsNext bytes.now next) }
    ensures memory { OnErr result (BeginsWithRequest bytes.now) }
{
    let text = &bytes[start..end];
    let mut headers = [EMPTY_HEADER_SPAN; 64];
    let Some(spans) = good_head_spans(text, &mut headers) else {
        unreachable!()
    };
    let headers = &headers[..spans.headers];
    next_read(heap, text, &spans, headers, end, reading)
}
