//! Whether the next step of a connection only reads.

ghost use Rattle.std.specs.Prelude.{◌≡◌, true};
ghost use Rattle.doc_server_listen.specs.OnlyReads.{OnlyReads, ReadsOnly};

use doc_http::request::{Next, next_request};
use doc_hub::method::Method;
use doc_page_parts::heap::Heap;

/// Whether the next step on a connection with these unread bytes is of a request that only reads, or of none. `false` where that isn't
/// known: memory was lacking.
pub fn only_reads(heap: Heap, unread: &[u8]) -> bool
    ensures { result ≡ true → OnlyReads unread.now }
{
    match next_request(heap, unread) {
        Ok(next) => reads_only(&next),
        Err(_) => false,
    }
}

/// Whether this is a request that only reads, or none.
fn reads_only(next: &Next) -> bool
    ensures { result ≡ true → ReadsOnly next.now }
{
    match next {
        Next::Request { request, .. } => Method::of(request.method.get()).reads(),
        Next::More | Next::Fault { .. } => true,
    }
}
