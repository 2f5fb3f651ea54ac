//! A pause between what is done again and again.

use std::rt::Clock;
use std::time::{Duration, Instant};

/// A pause between what is done again and again.
#[derive(Clone, Copy, Drop)]
pub struct Pause {
    time: Duration,
    /// When it began, where the clock has told that.
    since: Option<Instant>,
}

impl Pause {
    /// A pause of so long a time, which begins now.
    pub fn begin<C: Clock>(rt: &C, time: Duration) -> Pause {
        Pause {
            time,
            since: Instant::now(rt).ok(),
        }
    }

    /// The same, which begins anew.
    pub fn again<C: Clock>(self, rt: &C) -> Pause {
        Pause::begin(rt, self.time)
    }

    /// Whether it is over. Where the clock doesn't tell that, it isn't.
    pub fn is_over<C: Clock>(&self, rt: &C) -> bool {
        has_passed(self.since, Instant::now(rt).ok(), self.time)
    }
}

/// Whether so long a time has passed between two moments; where one of them isn't known it hasn't.
pub fn has_passed(since: Option<Instant>, now: Option<Instant>, time: Duration) -> bool {
    match (since, now) {
        (Some(since), Some(now)) => now.duration_since(since) >= time,
        _ => false,
    }
}
