//! The writer that a command is tried with.

use crate::ways::{Given, Way};
use doc_page_parts::failure::Memory;
use doc_page_parts::heap::{Heap, String, Vec};
use std::io;
use std::io::{ErrorKind, Write};

/// More bytes than a command writes here.
const MANY: usize = 65_536;

/// Room for so many bytes. The first write and the first flush are interrupted or not, and a flush breaks or not.
#[derive(Drop)]
pub struct Sink {
    held: Vec<u8>,
    room: usize,
    interrupts_write: bool,
    interrupts_flush: bool,
    breaks: bool,
}

impl Sink {
    /// The memory for what is written is taken here.
    pub fn new(heap: Heap, given: Given<'_>) -> Result<Sink, Memory> {
        Ok(Sink {
            held: Vec::with_capacity(heap, given.room.min(MANY))?,
            room: given.room,
            interrupts_write: given.way == Way::Interrupted,
            interrupts_flush: given.way == Way::Interrupted,
            breaks: given.way == Way::Unflushed,
        })
    }

    /// What was written: a text, where it wasn't cut inside a character.
    pub fn into_text(self, heap: Heap) -> String {
        match String::from_utf8(self.held) {
            Ok(text) => text,
            Err(_) => String::new(heap),
        }
    }
}

impl Write for Sink {
    fn write(&mut self, buf: &[u8]) -> io::Result<usize> {
        if self.interrupts_write {
            self.interrupts_write = false;
            return Err(io::Error::from(ErrorKind::Interrupted));
        }
        let count = buf.len().min(self.room);
        if count == 0 {
            return Err(io::Error::from(ErrorKind::BrokenPipe));
        }
        self.held.extend_from_slice(&buf[..count])?;
        self.room = self.room.saturating_sub(count);
        Ok(count)
    }

    fn flush(&mut self) -> io::Result<()> {
        if self.interrupts_flush {
            self.interrupts_flush = false;
            return Err(io::Error::from(ErrorKind::Interrupted));
        }
        if self.breaks {
            Err(io::Error::from(ErrorKind::BrokenPipe))
        } else {
            Ok(())
        }
    }
}
