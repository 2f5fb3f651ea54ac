//! What who waits for records of the journal asks for.

ghost use Rattle.std.specs.Prelude.{◌≡◌};
ghost use Rattle.std.specs.List.{list_all};
ghost use Rattle.std.specs.Char.{is_ascii_digit};
ghost use Rattle.doc_server_status.specs.Queries.{is_number, number_in, part_by, part_in, wanted_by, wanted_by_both, wanted_in};

use crate::cut::cut_at;
use crate::identity::digits_in;
use std::str::from_utf8;

/// How many digits a number has at most.
const NUMBER_LIMIT: usize = 20;

/// What is wanted of the journal.
#[derive(Clone, Copy)]
pub struct Wanted {
    /// How many of its records are to be in the site at least.
    pub least: u64,
    /// The digits of the journal that it is to be, where one is named.
    pub identity: Option<[u8; 32]>,
}

/// A key of a query, with its value.
#[derive(Clone, Copy)]
enum Part {
    Least(u64),
    Of([u8; 32]),
}

impl Wanted {
    /// Nothing.
    pub const NOTHING: Wanted = Wanted {
        least: 0,
        identity: None,
    };
}

/// What a query wants; `None` where it is neither `least=N`, `of=IDENTITY` nor both with `&` between.
#[tactic(auto, unfolding(crate::specs::Queries::wanted_in))]
pub fn wanted_in(query: &[u8]) -> Option<Wanted>
    ensures { result ≡ wanted_in query.now }
{
    match cut_at(b'&', query) {
        Some(halves) => wanted_by_both(part_in(halves.front)?, part_in(halves.behind)?),
        None => Some(wanted_by(part_in(query)?)),
    }
}

/// What one part wants.
fn wanted_by(part: Part) -> Wanted
    ensures { result ≡ wanted_by part }
{
    match part {
        Part::Least(least) => Wanted {
            least,
            ..Wanted::NOTHING
        },
        Part::Of(identity) => Wanted {
            identity: Some(identity),
            ..Wanted::NOTHING
        },
    }
}

/// What two parts want, where their keys differ.
fn wanted_by_both(first: Part, second: Part) -> Option<Wanted>
    ensures { result ≡ wanted_by_both first second }
{
    match (first, second) {
        (Part::Least(least), Part::Of(identity)) | (Part::Of(identity), Part::Least(least)) => {
            Some(Wanted {
                least,
                identity: Some(identity),
            })
        }
        _ => None,
    }
}

/// The part that a text is.
#[tactic(auto, unfolding(crate::specs::Queries::part_in))]
fn part_in(text: &[u8]) -> Option<Part>
    ensures { result ≡ part_in text.now }
{
    let halves = cut_at(b'=', text)?;
    part_by(halves.front, halves.behind)
}

/// The part with this key and this value.
fn part_by(key: &[u8], value: &[u8]) -> Option<Part>
    ensures { result ≡ part_by key.now value.now }
{
    if key == b"least".as_slice() {
        return Some(Part::Least(number_in(value)?));
    }
    if key == b"of".as_slice() {
        return Some(Part::Of(digits_in(value)?));
    }
    None
}

/// The number of 1 to 20 decimal digits, where it fits in 64 bits.
#[tactic(auto, unfolding(crate::specs::Queries::number_in))]
fn number_in(text: &[u8]) -> Option<u64>
    ensures { result ≡ number_in text.now }
{
    if !is_number(text) {
        return None;
    }
    let Ok(digits) = from_utf8(text) else {
        unreachable!()
    };
    match digits.parse::<u64>() {
        Ok(number) => Some(number),
        Err(_) => None,
    }
}

/// Whether it has 1 to 20 decimal digits and nothing else.
fn is_number(text: &[u8]) -> bool
    ensures { result ≡ is_number text.now }
{
    1 <= text.len() && text.len() <= NUMBER_LIMIT && are_digits(text)
}

fn are_digits(text: &[u8]) -> bool
    ensures { result ≡ list_all is_ascii_digit text.now }
{
    text.iter().all(|byte| byte.is_ascii_digit())
}
