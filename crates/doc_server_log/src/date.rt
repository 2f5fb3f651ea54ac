//! Dates of the Gregorian calendar, by the count of days.

ghost use Rattle.std.specs.Prelude.{◌≡◌, ◌++◌, ◌<◌, ◌≤◌, ◌^◌, OnOk, string_bytes};
ghost use Rattle.doc_server_log.specs.Dates.{date_in, date_of, march_day};
ghost use Rattle.doc_server_log.specs.Moments.{full_date};

use doc_page_parts::failure::Memory;
use doc_page_parts::heap::String;
use std::fmt::Write;

/// Days from 1 March of the year 0 to 1 January 1970.
const DAYS_TO_1970: u32 = 719_468;

/// Days of 400 years.
const CYCLE_DAYS: u32 = 146_097;

/// Days of a century whose last year has no leap day.
const CENTURY_DAYS: u32 = 36_524;

/// Days of four years with a leap day.
const FOUR_YEARS_DAYS: u32 = 1_461;

const YEAR_DAYS: u32 = 365;

/// Days of five months from March or August on.
const FIVE_MONTHS_DAYS: u32 = 153;

/// A date of the Gregorian calendar, also before it was in use.
#[derive(Clone, Copy, Debug, PartialEq, Eq)]
pub struct Date {
    pub year: u32,
    /// From 1 on.
    pub month: u32,
    /// From 1 on.
    pub day: u32,
}

/// A day of a year that begins on 1 March, so that its leap day is the last.
#[derive(Clone, Copy)]
struct MarchDay {
    year: u32,
    /// How many days of the year are before it.
    day: u32,
}

impl Date {
    /// The date so many days behind 1 January 1970.
    pub fn of_day(days: u32) -> Date
        requires { days < 2 ^ 31 }
        ensures { result ≡ date_of days }
    {
        MarchDay::of_day(days + DAYS_TO_1970).date()
    }

    /// Writes it as RFC 3339 has it (section 5.6).
    pub fn push(&self, out: &mut String) -> Result<(), Memory>
        ensures { OnOk result (string_bytes out.new ≡ string_bytes out.old ++ full_date self.now) }
    {
        write!(out, "{:04}-{:02}-{:02}", self.year, self.month, self.day,)?;
        Ok(())
    }
}

impl MarchDay {
    /// The day so many days behind 1 March of the year 0.
    #[tactic(auto, unfolding(crate::specs::Dates::march_day))]
    fn of_day(days: u32) -> MarchDay
        ensures day { result ≡ march_day days }
        ensures early { result.year < 2 ^ 31 }
        ensures short { result.day ≤ 365 }
    {
        let in_cycle = days % CYCLE_DAYS;
        let century = (in_cycle / CENTURY_DAYS).min(3);
        let in_century = in_cycle - CENTURY_DAYS * century;
        let fours = in_century / FOUR_YEARS_DAYS;
        let in_fours = in_century - FOUR_YEARS_DAYS * fours;
        let year = (in_fours / YEAR_DAYS).min(3);
        MarchDay {
            year: 400 * (days / CYCLE_DAYS) + 100 * century + 4 * fours + year,
            day: in_fours - YEAR_DAYS * year,
        }
    }

    #[tactic(auto, unfolding(crate::specs::Dates::date_in))]
    fn date(self) -> Date
        requires early { self.year < 2 ^ 31 }
        requires short { self.day ≤ 365 }
        ensures { result ≡ date_in self }
    {
        let month = (5 * self.day + 2) / FIVE_MONTHS_DAYS;
        let day = self.day - (FIVE_MONTHS_DAYS * month + 2) / 5 + 1;
        if month < 10 {
            Date {
                year: self.year,
                month: month + 3,
                day,
            }
        } else {
            Date {
                year: self.year + 1,
                month: month - 9,
                day,
            }
        }
    }
}
