//! Bytes that are added at the end and taken from the front.

ghost use Rattle.std.specs.Prelude.{◌≡◌, ◌++◌, ◌≤◌, [], length, drop, OnOk, OnErr};

use doc_page_parts::failure::Memory;
use doc_page_parts::heap::{Heap, Vec};
use std::marker::Model;

/// Bytes that are added at the end and taken from the front. Contracts see them as a list.
///
/// Taken bytes stay in the buffer until they are at least as many as those that follow, so that
/// taking many times from one buffer moves each byte a bounded number of times.
#[derive(Drop)]
pub struct ByteQueue {
    buffer: Vec<u8>,
    taken: usize,
}

impl Model for ByteQueue {
    ghost use Rattle.std.specs.Prelude.{ℕ, List as Seq, ◌≤◌, drop, length};

    ghost Value = { Seq ℕ };

    ghost view = { λ q. drop q.taken q.buffer.items };

    ghost invariant = { λ q. q.taken ≤ length q.buffer.items };
}

impl ByteQueue {
    /// No bytes.
    pub fn new(heap: Heap) -> ByteQueue
        ensures { result ≡ [] }
    {
        ByteQueue {
            buffer: Vec::new(heap),
            taken: 0,
        }
    }

    pub fn get(&self) -> &[u8]
        ensures { result.now ≡ self.now }
    {
        &self.buffer[self.taken..]
    }

    /// Adds bytes at the end.
    pub fn push(&mut self, bytes: &[u8]) -> Result<(), Memory>
        ensures ok { OnOk result (self.new ≡ self.old ++ bytes.now) }
        ensures err { OnErr result (self.new ≡ self.old) }
    {
        self.compact();
        self.buffer.extend_from_slice(bytes)?;
        Ok(())
    }

    /// Takes bytes from the front.
    pub fn take_front(&mut self, count: usize)
        requires { count ≤ length self.old }
        ensures { self.new ≡ drop count self.old }
    {
        self.taken += count;
    }

    /// Drops all bytes, and gives their room back.
    pub fn clear(&mut self)
        ensures { self.new ≡ [] }
    {
        self.buffer.clear();
        self.buffer.shrink_to_fit();
        self.taken = 0;
    }

    /// Moves the bytes to the buffer's front, where they are no more than the taken ones.
    fn compact(&mut self)
        ensures { self.new ≡ self.old }
    {
        if self.taken >= self.buffer.len() - self.taken {
            self.buffer.drain(..self.taken);
            self.taken = 0;
        }
    }
}
