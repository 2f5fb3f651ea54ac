//! Requests at the front of the unread bytes of a connection.

ghost use Rattle.std.specs.Prelude.{length, IfOk, OnErr};
ghost use Rattle.doc_http.specs.Requests.{IsNext, BeginsWithRequest, UsesAtMost};

use crate::progress::Progress;
use doc_page_parts::bytes::Bytes;
use doc_page_parts::failure::Memory;
use doc_page_parts::heap::Heap;
use doc_page_parts::text::Text;

/// A whole request (RFC 9112, section 2.1).
#[derive(Debug, Drop)]
pub struct Request {
    /// As it came: methods have case.
    pub method: Text,
    /// The request target as it came, with its query; any bytes over 20 but 7F, in UTF-8.
    pub target: Text,
    /// The value of its one Authorization field, without the spaces and tabs around it.
    pub authorization: Option<Bytes>,
    /// Whether the connection ends after the reply: in HTTP/1.0, or where a Connection field lists
    /// `close` in any case (RFC 9112, section 9.3).
    pub close: bool,
    /// Whether some Accept field has a part that names `text/html` in any case, with any parameters (RFC
    /// 9110, section 12.5.1). `*/*` and `text/*` don't.
    pub html: bool,
    /// Whether it has one Content-Type field, and that one's media type is `text/markdown` in any case, with
    /// any parameters (RFC 9110, section 8.3; RFC 7763).
    pub markdown: bool,
    /// The values of all its If-Match fields in their order, joined by `, ` (RFC 9110, sections 5.3 and 13.1.1).
    pub if_match: Option<Bytes>,
    /// The same of its If-None-Match fields (RFC 9110, section 13.1.2).
    pub if_none_match: Option<Bytes>,
    /// Decoded: of a chunked body the data of its chunks.
    pub body: Bytes,
}

/// What unread bytes begin with.
#[derive(Debug, Drop)]
pub enum Next {
    /// Neither a whole request nor a fault yet.
    More,
    /// A whole request, which takes the first `used` bytes with the empty lines before it.
    Request { used: usize, request: Request },
    /// What can't be answered: the code of the reply, after which the connection ends, and whether
    /// the reply is its head alone (`bare`), as to a request whose head was read and whose method is HEAD.
    Fault { code: u16, bare: bool },
}

/// What the unread bytes begin with. One reading of them all: `Unread` has one that goes on where it
/// stopped.
///
/// Faults, in this order: 431 where no head ends in 16,384 bytes; 400 where it is no head of HTTP/1.0 or
/// 1.1 with at most 64 fields, or has a line feed that no carriage return precedes, or not one Host field
/// (HTTP/1.0: at most one), or more than one Authorization field; 501 where there is a Transfer-Encoding
/// and it is not one field of the value `chunked`; 400 where that stands in HTTP/1.0 or beside a
/// Content-Length, or Content-Length is not one field of digits; 413 where that is more than 1,048,576;
/// 400 and 413 in the chunks of a body, the first that stands there. The body of any method is read.
///
/// Memory is taken for a whole request.
pub fn next_request(heap: Heap, bytes: &[u8]) -> Result<Next, Memory>
    ensures found { IfOk result (λ next. IsNext bytes.now next) }
    ensures within { IfOk result (UsesAtMost (length bytes.now)) }
    ensures memory { OnErr result (BeginsWithRequest bytes.now) }
{
    let mut progress = Progress::new();
    progress.next(heap, bytes)
}
