//! Moments, as the log writes them.

ghost use Rattle.std.specs.Prelude.{◌≡◌, ◌++◌, ◌<◌, ◌/◌, OnOk, SomeIff, string_bytes};
ghost use Rattle.std.specs.Duration.{as_nanos};
ghost use Rattle.doc_server_log.specs.Moments.{end_of_9999, fraction, rfc3339, time_of_day};

use crate::date::Date;
use doc_page_parts::failure::Memory;
use doc_page_parts::heap::String;
use std::fmt::Write;
use std::marker::Model;
use std::time::Duration;

const DAY_SECONDS: u64 = 86_400;

/// The beginning of the year 10000.
const END_OF_9999: u64 = 253_402_300_800_000_000;

/// A moment from 1970 to the end of 9999. Contracts see the whole microseconds since 1970 began, without leap seconds, as POSIX counts
/// them.
#[derive(Clone, Copy, Debug)]
pub struct Moment {
    micros: u64,
}

impl Model for Moment {
    ghost use Rattle.std.specs.Prelude.{ℕ, ◌<◌};
    ghost use Rattle.doc_server_log.specs.Moments.{end_of_9999};

    ghost Value = { ℕ };

    ghost view = { λ m. m.micros };

    ghost invariant = { λ m. m.micros < end_of_9999 };

    ghost inverse = { λ micros. record { micros = micros } };
}

impl Moment {
    /// The moment so long behind the beginning of 1970, as `Clock::since_1970` tells it; `None` where it isn't before the year 10000.
    pub fn since_1970(duration: Duration) -> Option<Moment>
        ensures { SomeIff result (as_nanos duration / 1_000 < end_of_9999) (as_nanos duration / 1_000) }
    {
        match u64::try_from(duration.as_micros()) {
            Ok(micros) if micros < END_OF_9999 => Some(Moment { micros }),
            _ => None,
        }
    }

    /// Writes it as RFC 3339 has it (section 5.6), in UTC and with six digits of the second's fraction.
    #[tactic(auto, unfolding(crate::specs::Moments::rfc3339))]
    pub fn push(&self, out: &mut String) -> Result<(), Memory>
        ensures { OnOk result (string_bytes out.new ≡ string_bytes out.old ++ rfc3339 self.now) }
    {
        let seconds = self.micros / 1_000_000;
        Date::of_day((seconds / DAY_SECONDS) as u32).push(out)?;
        out.push_str("T")?;
        push_time_of_day(out, (seconds % DAY_SECONDS) as u32)?;
        push_fraction(out, (self.micros % 1_000_000) as u32)
    }
}

/// Writes a time of the day, in seconds of it.
fn push_time_of_day(out: &mut String, seconds: u32) -> Result<(), Memory>
    ensures { OnOk result (string_bytes out.new ≡ string_bytes out.old ++ time_of_day seconds) }
{
    write!(
        out,
        "{:02}:{:02}:{:02}",
        seconds / 3_600,
        seconds / 60 % 60,
        seconds % 60,
    )?;
    Ok(())
}

/// Writes the microseconds of a second, and that the time is UTC's.
fn push_fraction(out: &mut String, micros: u32) -> Result<(), Memory>
    ensures { OnOk result (string_bytes out.new ≡ string_bytes out.old ++ fraction micros) }
{
    write!(out, ".{:06}Z", micros)?;
    Ok(())
}
