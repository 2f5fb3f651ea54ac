//! Where a request's head lies, and what it is made of.

ghost use Rattle.std.specs.Prelude.{◌≡◌, ◌≤◌, ◌+◌, ◌-◌, ◌++◌, ℕ, List, Option, length, take, drop, IfSome, None, Some, true, false};
ghost use Rattle.httparse.specs.Grammar.{RequestHead};
ghost use Rattle.httparse.specs.Spans.{IsRequestAt, IsRequestWithin};
ghost use Rattle.doc_http.specs.Heads.{head_limit, head_span_in, head_span_of, skip_empty_lines, IsHead, IsRead, has_bare_line_feed};
ghost use Rattle.doc_http.specs.KnowledgeSteps.{CameTo};
ghost use Rattle.doc_http.specs.Requests.{is_bad};
ghost use Rattle.doc_http.specs.declared.head.HeadSpan.TheVariants as spans;

use crate::fields::has_good_counts;
use doc_http_bodies::finding::lines_len;
use doc_http_bodies::slices::front;
use httparse::Status;
use httparse::spans::{HeaderSpan, RequestSpans, parse_request};

/// How many bytes a head may take, with the empty lines before it.
pub const HEAD_LIMIT: usize = 16384;

/// Where a head lies in the unread bytes.
#[derive(Clone, Copy)]
pub enum HeadSpan {
    /// No head ends yet.
    Unfinished,
    /// No head ends in as many bytes as it may take.
    TooLong,
    /// Its first byte, and the first byte behind it.
    At { start: usize, end: usize },
}

/// How far the search for the end of a head came.
#[derive(Clone, Copy)]
pub struct HeadSearch {
    /// The bytes of the empty lines that were skipped.
    pub start: usize,
    /// In how many bytes behind them no CR LF CR LF begins.
    pub searched: usize,
}

impl HeadSearch {
    /// Nothing was looked at.
    pub fn new() -> Self
        ensures { (front : List ℕ) → CameTo result front }
    {
        HeadSearch {
            start: 0,
            searched: 0,
        }
    }
}

/// Where the head lies in the unread bytes, of which as much was looked at before; and how far the
/// search came, where it is to go on.
pub fn find_head(bytes: &[u8], search: HeadSearch) -> (HeadSpan, HeadSearch)
    requires { CameTo search (take head_limit bytes.now) }
    ensures span { result.0 ≡ head_span_of bytes.now }
    ensures search { result.0 ≡ spans.Unfinished
        → (more : List ℕ) → CameTo result.1 (take head_limit (bytes.now ++ more)) }
{
    let full = bytes.len() >= HEAD_LIMIT;
    find_in(front(bytes, HEAD_LIMIT), full, search)
}

/// The same in the bytes that the head may take, of which all came or not.
fn find_in(front: &[u8], full: bool, search: HeadSearch) -> (HeadSpan, HeadSearch)
    requires { CameTo search front.now }
    ensures span { result.0 ≡ head_span_in front.now full }
    ensures search { result.0 ≡ spans.Unfinished
        → (more : List ℕ) → CameTo result.1 (front.now ++ more) }
{
    let start = empty_lines(front, search.start);
    let text = &front[start..];
    match lines_len(text, search.searched) {
        Some(len) => {
            let end = start + len;
            (HeadSpan::At { start, end }, search)
        }
        None if full => (HeadSpan::TooLong, search),
        None => {
            // A CR LF CR LF may still begin in the last three bytes.
            let searched = text.len().saturating_sub(3);
            (HeadSpan::Unfinished, HeadSearch { start, searched })
        }
    }
}

/// How many bytes the empty lines at the front take, of which `start` bytes were skipped before.
fn empty_lines(bytes: &[u8], start: usize) -> usize
    requires within { start ≤ length bytes.now }
    requires skipped { skip_empty_lines bytes.now ≡ skip_empty_lines (drop start bytes.now) }
    ensures within { result ≤ length bytes.now }
    ensures rest { drop result bytes.now ≡ skip_empty_lines bytes.now }
{
    let mut at = start;
    'lines: while bytes[at..].starts_with(b"\r\n") {
        at += 2;
    }
    at
}

/// Whether the text has a line feed that no carriage return precedes.
pub fn has_bare_line_feed(text: &[u8]) -> bool
    ensures { result ≡ has_bare_line_feed text.now }
{
    let mut last = 0;
    'bytes: for byte in text {
        if *byte == b'\n' && last != b'\r' {
            return true;
        }
        last = *byte;
    }
    false
}

/// Where the parts of the head are that the whole text is, if it is one.
pub fn head_spans(text: &[u8], headers: &mut [HeaderSpan]) -> Option<RequestSpans>
    requires { length headers.old ≡ 64 }
    ensures within { IfSome result (IsRequestWithin text.now headers.new) }
    ensures found { IfSome result (λ spans.
        (head : RequestHead) × IsHead text.now head
        × IsRequestAt text.now headers.new spans head) }
    ensures missing { result ≡ None → (head : RequestHead) → ¬ (IsHead text.now head) }
{
    match parse_request(text, headers) {
        Ok(Status::Complete(spans)) => {
            if spans.len == text.len() {
                Some(spans)
            } else {
                None
            }
        }
        _ => None,
    }
}

/// Where the parts are of the head that the whole text is, if it is one that a request may have: without a
/// bare line feed, and with the Host and Authorization fields that it may have.
pub fn good_head_spans(text: &[u8], headers: &mut [HeaderSpan]) -> Option<RequestSpans>
    requires { length headers.old ≡ 64 }
    ensures within { IfSome result (IsRequestWithin text.now headers.new) }
    ensures found { IfSome result (λ spans.
        (head : RequestHead) × IsHead text.now head
        × IsRequestAt text.now headers.new spans head
        × (is_bad text.now (Some head) ≡ false)) }
    ensures missing { result ≡ None
        → (read : Option RequestHead) × IsRead text.now read × (is_bad text.now read ≡ true) }
{
    let Some(spans) = head_spans(text, headers) else {
        return None;
    };
    if has_bare_line_feed(text) {
        return None;
    }
    if !has_good_counts(text, &headers[..spans.headers], spans.version) {
        return None;
    }
    Some(spans)
}
