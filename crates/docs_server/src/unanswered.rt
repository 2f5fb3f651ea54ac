//! What came on a connection and isn't answered yet, as the log knows it.

use doc_http::request::Next;
use doc_http::unread::Unread;
use doc_page_parts::failure::Memory;
use doc_page_parts::heap::{Heap, String};
use doc_server_log_names::answered::Answered;
use doc_server_log_names::lines::Lines;
use std::time::Instant;

/// What came on a connection and isn't answered yet: the same bytes as the server's, which reads them in the same way.
#[derive(Drop)]
pub struct Unanswered {
    unread: Unread,
    /// When the turn began in which bytes came last. By then all requests before them had been answered.
    began: Option<Instant>,
}

impl Unanswered {
    /// Nothing came yet.
    pub fn new(heap: Heap) -> Unanswered {
        Unanswered {
            unread: Unread::new(heap),
            began: None,
        }
    }

    /// Adds bytes that came in a turn which began then, where that is known.
    pub fn add(&mut self, bytes: &[u8], began: Option<Instant>) -> Result<(), Memory> {
        self.began = began;
        self.unread.push(bytes)
    }

    /// For how many microseconds the next request has waited for its reply.
    pub fn waited(&self, now: Instant) -> u128 {
        match self.began {
            Some(began) => now.duration_since(began).as_micros(),
            None => 0,
        }
    }

    /// Writes the line of the next request, which was answered so, and takes it.
    pub fn take(
        &mut self,
        heap: Heap,
        lines: &Lines,
        out: &mut String,
        answered: &Answered,
    ) -> Result<(), Memory> {
        match self.unread.next_request()? {
            Next::Request { used, request } => {
                lines.push_request(heap, out, answered, &request)?;
                self.unread.take_front(used);
            }
            Next::Fault { .. } | Next::More => {
                lines.push_bytes(out, answered, self.unread.get())?;
                self.unread.clear();
            }
        }
        Ok(())
    }
}
