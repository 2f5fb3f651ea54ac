//! What bytes begin with whose head was read.

ghost use Rattle.std.specs.Prelude.{◌≡◌, ◌<◌, ◌+◌, ◌^◌, ◌==◌, length, map, All, IfOk, OnErr, IsUtf8, codes, bytes_eq};
ghost use Rattle.httparse.specs.Spans.{header_bytes, span_bytes, IsHeaderWithin, IsWithin};
ghost use Rattle.doc_http_bodies.specs.Framings.{framing_of as framing_by};
ghost use Rattle.doc_http.specs.Requests.{is_bare as bare_test, IsRequest};
ghost use Rattle.doc_http.specs.BuildingSteps.{EndsWithin, request_at_spans, next_at_spans};

use crate::accept::asks_html;
use crate::conditions::joined_values;
use crate::content_type::sends_markdown;
use crate::fields::{asks_close, value_named};
use crate::request::{Next, Request};
use doc_http_bodies::fault::Fault;
use doc_http_bodies::fields::FramingFields;
use doc_http_bodies::framing::Framing;
use doc_http_bodies::reader::Reading;
use doc_page_parts::bytes::Bytes;
use doc_page_parts::failure::Memory;
use doc_page_parts::heap::Heap;
use doc_page_parts::text::Text;
use httparse::spans::{HeaderSpan, RequestSpans};
use std::str::from_utf8;

/// How the body is framed behind the head of this text, in HTTP/1.0 (`is_old`) or in HTTP/1.1.
pub fn framing_of(text: &[u8], headers: &[HeaderSpan], is_old: bool) -> Result<Framing, Fault>
    requires { All (IsHeaderWithin (length text.now)) headers.now }
    ensures { result ≡ framing_by is_old (map (header_bytes text.now) headers.now) }
{
    let mut seen = FramingFields::new();
    'headers: for header in headers {
        seen.see(header.name.of(text), header.value.of(text));
    }
    seen.framing(is_old)
}

/// Whether the reply to the request is its head alone.
pub fn is_bare(text: &[u8], spans: &RequestSpans) -> bool
    requires { IsWithin (length text.now) spans.now.method }
    ensures { result ≡ bare_test (span_bytes text.now spans.now.method) }
{
    spans.method.of(text) == b"HEAD".as_slice()
}

/// What bytes begin with whose head has this text and ends at `end`, by what the bytes behind it come to.
pub fn next_read(
    heap: Heap,
    text: &[u8],
    spans: &RequestSpans,
    headers: &[HeaderSpan],
    end: usize,
    reading: Reading,
) -> Result<Next, Memory>
    requires method_within { IsWithin (length text.now) spans.now.method }
    requires target_within { IsWithin (length text.now) spans.now.path }
    requires method_text { IsUtf8 (span_bytes text.now spans.now.method) }
    requires target_text { IsUtf8 (span_bytes text.now spans.now.path) }
    requires headers_within { All (IsHeaderWithin (length text.now)) headers.now }
    requires end_fits { EndsWithin end reading }
    ensures found { IfOk result
        (λ next. next ≡ next_at_spans text.now spans.now headers.now end reading) }
    ensures memory { OnErr result
        (IsRequest (next_at_spans text.now spans.now headers.now end reading)) }
{
    match reading {
        Reading::More => Ok(Next::More),
        Reading::Fault(fault) => Ok(Next::Fault {
            code: fault.code(),
            bare: is_bare(text, spans),
        }),
        Reading::Whole { used, body } => {
            let request = request_of(heap, text, spans, headers, body)?;
            Ok(Next::Request {
                used: end + used,
                request,
            })
        }
    }
}

/// The request with this head and this body.
fn request_of(
    heap: Heap,
    text: &[u8],
    spans: &RequestSpans,
    headers: &[HeaderSpan],
    body: Bytes,
) -> Result<Request, Memory>
    requires method_within { IsWithin (length text.now) spans.now.method }
    requires target_within { IsWithin (length text.now) spans.now.path }
    requires method_text { IsUtf8 (span_bytes text.now spans.now.method) }
    requires target_text { IsUtf8 (span_bytes text.now spans.now.path) }
    requires headers_within { All (IsHeaderWithin (length text.now)) headers.now }
    ensures { IfOk result
        (λ request. request ≡ request_at_spans text.now spans.now headers.now body) }
{
    let method = text_of(heap, spans.method.of(text))?;
    let target = text_of(heap, spans.path.of(text))?;
    let authorization = match value_named(text, headers, b"authorization") {
        Some(value) => Some(Bytes::copy_of(heap, value)?),
        None => None,
    };
    let if_match = joined_values(heap, text, headers, b"if-match")?;
    let if_none_match = joined_values(heap, text, headers, b"if-none-match")?;
    Ok(Request {
        method,
        target,
        authorization,
        close: asks_close(text, headers, spans.version),
        html: asks_html(text, headers),
        markdown: sends_markdown(text, headers),
        if_match,
        if_none_match,
        body,
    })
}

/// The text with these bytes.
fn text_of(heap: Heap, bytes: &[u8]) -> Result<Text, Memory>
    requires { IsUtf8 bytes.now }
    ensures { IfOk result (λ text. text ≡ bytes.now) }
{
    let Ok(text) = from_utf8(bytes) else {
        unreachable!()
    };
    Text::copy_of(heap, text)
}
