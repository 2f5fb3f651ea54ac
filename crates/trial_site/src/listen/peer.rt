//! A peer of the server, and the whole replies among what it has heard.

use doc_page_parts::heap::{Heap, Vec};
use mio::net::TcpStream;
use std::io::{ErrorKind, Read, Write};
use std::net::{Net, SocketAddr};
use std::str::from_utf8;

/// How many bytes a read gives at most.
const PIECE: usize = 16_384;

/// More reads than what the system holds for a stream takes.
const READS: u32 = 100_000;

/// The end of a head's last line, and the empty line behind it.
const HEAD_END: &[u8] = b"\r\n\r\n";

/// How replies end.
#[derive(Clone, Copy, PartialEq, Eq)]
pub enum Ending {
    /// Behind as many bytes as the head's Content-Length says, or none without one.
    Content,
    /// With their head, as those to HEAD do. What is in front of the next head, as a content without an empty line, counts with it.
    Head,
}

/// Whole replies in front of what was heard.
#[derive(Clone, Copy)]
struct Whole {
    count: usize,
    /// Where the last one ends.
    end: usize,
}

/// A peer's stream, and what was heard of it.
#[derive(Drop)]
pub struct Peer {
    /// None: the peer has gone away.
    stream: Option<TcpStream>,
    heard: Vec<u8>,
    /// The replies that were counted so far, which aren't read again.
    whole: Whole,
    has_ended: bool,
}

impl Peer {
    /// A peer that connects to this address.
    pub fn connect<P: Net>(rt: &P, heap: Heap, address: SocketAddr) -> Option<Peer> {
        let Ok(stream) = TcpStream::connect(rt, address) else {
            return None;
        };
        Some(Peer {
            stream: Some(stream),
            heard: Vec::new(heap),
            whole: no_replies(),
            has_ended: false,
        })
    }

    /// Goes away, whatever it was about to read.
    pub fn leave(&mut self) {
        self.stream = None;
    }

    /// Whether the server has ended the stream.
    pub fn has_ended(&self) -> bool {
        self.has_ended
    }

    /// Whether so many whole replies, which end like this, were heard since they were forgotten.
    pub fn has_heard(&mut self, count: usize, ending: Ending) -> bool {
        for _ in self.whole.count..count {
            if !self.count_reply(ending) {
                return false;
            }
        }
        true
    }

    /// Counts the next reply, and answers whether it is whole.
    fn count_reply(&mut self, ending: Ending) -> bool {
        let rest = self.heard.get(self.whole.end..).unwrap_or(&[]);
        let Some(len) = reply_len(rest, ending) else {
            return false;
        };
        self.whole = Whole {
            count: self.whole.count.saturating_add(1),
            end: self.whole.end.saturating_add(len),
        };
        true
    }

    /// What was heard.
    pub fn heard(&self) -> &[u8] {
        self.heard.as_slice()
    }

    /// Forgets what was heard.
    pub fn forget(&mut self) {
        self.heard.clear();
        self.whole = no_replies();
    }

    /// Writes once, and answers the bytes that weren't taken.
    pub fn write<'a>(&self, bytes: &'a [u8]) -> &'a [u8] {
        let Some(stream) = &self.stream else {
            return bytes;
        };
        let mut writer = stream;
        match writer.write(bytes) {
            Ok(count) => bytes.get(count..).unwrap_or(&[]),
            Err(_) => bytes,
        }
    }

    /// Reads until nothing comes.
    pub fn read(&mut self) {
        let mut piece = [0u8; PIECE];
        for _ in 0..READS {
            if !self.read_piece(&mut piece) {
                return;
            }
        }
    }

    /// Reads once, and answers whether bytes came.
    fn read_piece(&mut self, piece: &mut [u8]) -> bool {
        let Some(stream) = &self.stream else {
            return false;
        };
        let mut reader = stream;
        match reader.read(piece) {
            Ok(0) => {
                self.has_ended = true;
                false
            }
            Ok(count) => self.hear(piece.get(..count).unwrap_or(&[])),
            Err(e) => {
                self.has_ended = e.kind() != ErrorKind::WouldBlock;
                false
            }
        }
    }

    /// Adds what came, where memory is left for it.
    fn hear(&mut self, bytes: &[u8]) -> bool {
        self.heard.extend_from_slice(bytes).is_ok()
    }
}

fn no_replies() -> Whole {
    Whole { count: 0, end: 0 }
}

/// How many bytes the reply has that these begin with, where it is whole.
fn reply_len(bytes: &[u8], ending: Ending) -> Option<usize> {
    let head = head_of(bytes)?;
    let content = match ending {
        Ending::Content => content_length(head).unwrap_or(0),
        Ending::Head => 0,
    };
    let len = head.len().checked_add(content)?;
    if len <= bytes.len() { Some(len) } else { None }
}

/// What these bytes begin with, up to the first empty line.
fn head_of(bytes: &[u8]) -> Option<&[u8]> {
    let at = bytes
        .windows(HEAD_END.len())
        .position(|four| four == HEAD_END)?;
    bytes.get(..at.saturating_add(HEAD_END.len()))
}

/// What the Content-Length of a head says.
fn content_length(head: &[u8]) -> Option<usize> {
    let text = from_utf8(head).ok()?;
    let (_, rest) = text.split_once("\r\nContent-Length: ")?;
    let (digits, _) = rest.split_once("\r\n")?;
    digits.parse::<usize>().ok()
}
