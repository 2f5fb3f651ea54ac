//! Calls of `doc_http`: what bytes begin with.

use crate::given::bytes_of;
use crate::stop::Stop;
use crate::written::{push, push_after, push_bytes};
use doc_http::request::{Next, Request, next_request};
use doc_http::unread::Unread;
use doc_page_parts::failure::Memory;
use doc_page_parts::heap::{Heap, String};

/// `BYTES`: what they begin with.
pub fn next(out: &mut String, heap: Heap, given: &str) -> Result<(), Stop> {
    let bytes = bytes_of(heap, given)?;
    let next = next_request(heap, &bytes);
    drop(bytes);
    push_found(out, None, next)
}

/// `BYTES`: how many of them decide what they begin with, and what that is, where they come one by one.
pub fn drip(out: &mut String, heap: Heap, given: &str) -> Result<(), Stop> {
    let bytes = bytes_of(heap, given)?;
    let mut unread = Unread::new(heap);
    let next = next_of_bytes(&mut unread, &bytes);
    let count = unread.get().len();
    drop(unread);
    drop(bytes);
    push_found(out, Some(count), next)
}

/// What bytes come to that are pushed one by one, until that is decided.
fn next_of_bytes(unread: &mut Unread, bytes: &[u8]) -> Result<Next, Memory> {
    for byte in bytes {
        match next_with(unread, *byte)? {
            Next::More => {}
            decided => return Ok(decided),
        }
    }
    Ok(Next::More)
}

fn next_with(unread: &mut Unread, byte: u8) -> Result<Next, Memory> {
    unread.push(&[byte])?;
    unread.next_request()
}

/// Writes what bytes begin with, behind how many decide it, where that is told.
fn push_found(
    out: &mut String,
    count: Option<usize>,
    next: Result<Next, Memory>,
) -> Result<(), Stop> {
    let Ok(next) = next else {
        return Err(Stop::Refused);
    };
    let pushed = push_counted(out, count, &next);
    drop(next);
    Ok(pushed?)
}

fn push_counted(out: &mut String, count: Option<usize>, next: &Next) -> Result<(), Memory> {
    if let Some(count) = count {
        write!(out, "{count}: ")?;
    }
    push_next(out, next)
}

/// Writes what bytes begin with.
fn push_next(out: &mut String, next: &Next) -> Result<(), Memory> {
    match next {
        Next::More => push(out, "more"),
        Next::Fault { code, bare } => {
            let bare = if *bare { "bare " } else { "" };
            Ok(write!(out, "{bare}fault {code}")?)
        }
        Next::Request { used, request } => push_request(out, *used, request),
    }
}

/// Writes a request's length, method and target, and where it has them the value of its Authorization, that it closes, and its body.
fn push_request(out: &mut String, used: usize, request: &Request) -> Result<(), Memory> {
    let method = request.method.get();
    write!(out, "request {used} {method} ")?;
    push_bytes(out, request.target.get().as_bytes())?;
    if let Some(value) = &request.authorization {
        push_after(out, " by ", value.get())?;
    }
    if request.close {
        push(out, " closes")?;
    }
    if request.body.get().is_empty() {
        return Ok(());
    }
    push_after(out, " with ", request.body.get())
}
