//! A monitor's connection: one request, its reply, and the end.

use doc_page_parts::bytes::Bytes;
use doc_page_parts::heap::{Heap, Vec};
use doc_server_serving::net::came::Came;
use doc_server_serving::net::retrying::{read_once, write_once};
use doc_server_status::counters::Counters;
use doc_server_status::door::{looks_at_metrics, status_reply};
use mio::net::TcpStream;
use std::net::Shutdown;
use std::time::{Duration, Instant};

/// For how many seconds a monitor stands at most.
const PATIENCE: u64 = 5;

/// How many bytes a read gives at most.
const PIECE: usize = 1_024;

/// How many bytes a request line has at most, with its end.
const LINE_LIMIT: usize = 1_026;

/// A connection is over.
#[derive(Drop)]
struct Over;

/// A connection on which one request is answered.
#[derive(Drop)]
pub struct Monitor {
    stream: TcpStream,
    /// What has come of the request line.
    came: Vec<u8>,
    reply: Option<Bytes>,
    /// How many bytes of it were handed over.
    sent: usize,
    began: Instant,
}

impl Monitor {
    /// A connection on which nothing has come yet.
    pub fn new(heap: Heap, stream: TcpStream, began: Instant) -> Monitor {
        Monitor {
            stream,
            came: Vec::new(heap),
            reply: None,
            sent: 0,
            began,
        }
    }

    /// Reads once, and writes once. None: it is over.
    pub fn go_on(self, heap: Heap, counters: &mut Counters, now: Instant) -> Option<Monitor> {
        let mut monitor = self;
        if now.duration_since(monitor.began) > Duration::from_secs(PATIENCE) {
            return None;
        }
        if monitor.hear(heap, counters).is_err() || monitor.hand_over().is_err() {
            return None;
        }
        Some(monitor)
    }

    /// Reads once. What comes behind the request line is passed over, until the peer ends: else it might miss the reply.
    fn hear(&mut self, heap: Heap, counters: &mut Counters) -> Result<(), Over> {
        let mut piece = [0; PIECE];
        let count = match read_once(&self.stream, &mut piece) {
            Ok(Came::Bytes(count)) => count,
            Ok(Came::Nothing) => return Ok(()),
            Ok(Came::End) | Err(_) => return Err(Over),
        };
        if self.reply.is_some() {
            return Ok(());
        }
        if self.came.extend_from_slice(&piece[..count]).is_err() {
            return Err(Over);
        }
        self.answer(heap, counters)
    }

    /// Makes the reply, once the request line is whole.
    fn answer(&mut self, heap: Heap, counters: &mut Counters) -> Result<(), Over> {
        let Some(line) = first_line(&self.came) else {
            return if self.came.len() > LINE_LIMIT {
                Err(Over)
            } else {
                Ok(())
            };
        };
        let Ok(Some(reply)) = status_reply(heap, line, counters) else {
            return Err(Over);
        };
        if looks_at_metrics(line) {
            counters.looked();
        }
        self.reply = Some(reply);
        Ok(())
    }

    /// Writes once. Behind the last byte the peer sees the end.
    fn hand_over(&mut self) -> Result<(), Over> {
        let Some(reply) = &self.reply else {
            return Ok(());
        };
        let Some(rest) = reply.get().get(self.sent..) else {
            return Err(Over);
        };
        if rest.is_empty() {
            return Ok(());
        }
        let Ok(count) = write_once(&self.stream, rest) else {
            return Err(Over);
        };
        if count == rest.len() && self.stream.shutdown(Shutdown::Write).is_err() {
            return Err(Over);
        }
        self.sent = self.sent.saturating_add(count);
        Ok(())
    }
}

/// The first line of these bytes without its end (RFC 9112, section 2.2), once that is there.
fn first_line(came: &[u8]) -> Option<&[u8]> {
    let line = came.split(|byte| *byte == b'\n').next()?;
    if line.len() == came.len() {
        return None;
    }
    Some(line.strip_suffix(b"\r").unwrap_or(line))
}
