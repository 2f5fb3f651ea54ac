//! When the replies of a turn were handed over.

use doc_server_log::moment::Moment;
use std::rt::Clock;

/// When the replies of a turn were handed over. The clock is read once a turn, behind the first of them.
#[derive(Clone, Copy)]
pub enum Stamp {
    /// None was handed over yet.
    Unread,
    /// The moment; `None` where the clock failed.
    Read(Option<Moment>),
}

impl Stamp {
    /// The moment, which is read where it wasn't yet.
    pub fn moment<C: Clock>(&mut self, clock: &C) -> Option<Moment> {
        if matches!(self, Stamp::Unread) {
            *self = Stamp::Read(moment_of(clock));
        }
        match self {
            Stamp::Read(moment) => *moment,
            Stamp::Unread => None,
        }
    }
}

/// What a clock tells, where that can be written.
fn moment_of<C: Clock>(clock: &C) -> Option<Moment> {
    match clock.since_1970() {
        Ok(duration) => Moment::since_1970(duration),
        Err(_) => None,
    }
}
