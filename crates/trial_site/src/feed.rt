//! The reader that a command is tried with.

use crate::ways::{Given, Way};
use std::io;
use std::io::{ErrorKind, Read};

/// Bytes, behind which the input ends or breaks, or a byte that isn't UTF-8 stands. The first read is interrupted or not.
#[derive(Drop)]
pub struct Feed<'a> {
    rest: &'a [u8],
    interrupts: bool,
    strays: bool,
    breaks: bool,
}

impl<'a> Feed<'a> {
    pub fn new(given: Given<'a>) -> Feed<'a> {
        Feed {
            rest: given.text.as_bytes(),
            interrupts: given.way == Way::Interrupted,
            strays: given.way == Way::Stray,
            breaks: given.way == Way::Unread,
        }
    }

    /// Whether bytes are left.
    pub fn is_left(&self) -> bool {
        self.strays || !self.rest.is_empty()
    }
}

impl Read for Feed<'_> {
    fn read(&mut self, buf: &mut [u8]) -> io::Result<usize> {
        if self.interrupts {
            self.interrupts = false;
            return Err(io::Error::from(ErrorKind::Interrupted));
        }
        if self.rest.is_empty() && self.breaks {
            return Err(io::Error::from(ErrorKind::BrokenPipe));
        }
        if self.rest.is_empty() && self.strays {
            self.strays = false;
            self.rest = b"\xFF";
        }
        self.rest.read(buf)
    }
}
