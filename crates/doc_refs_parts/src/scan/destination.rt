//! Link destinations (CommonMark 0.31.2, section 6.3).
ghost use Rattle.std.specs.Prelude.{◌≡◌, ◌≤◌, nat_lt, length, Some, chars, codes};
ghost use Rattle.doc_rules.specs.Characters.{none_of};
ghost use Rattle.doc_rules.specs.Parsers.{is, passing};
ghost use Rattle.doc_rules.specs.Destinations.{is_bare, angled, balanced, bare, destination};
ghost use Rattle.doc_rules.specs.Rests.{IsRest};
ghost use Rattle.doc_lines.specs.RestSteps.{rest_of};
ghost use Rattle.doc_refs_parts.specs.ParenthesisSteps.{end_of_run, IsNextPlace};

use super::escaped::{escaped_or_one, many_or_escaped};
use doc_lines::scan::character::is;
use doc_lines::scan::front::front;

/// How many levels of parentheses a destination without `<` and `>` may have. The number is this project's choice.
const LEVELS: usize = 32;

/// The longest destination, between `<` and `>` or without them.
#[tactic(auto, unfolding(doc_rules::specs::Destinations::destination))]
pub fn destination(text: &str) -> Option<&str>
    ensures { rest_of result ≡ destination (chars text.now) }
{
    angled(text).or_else(|| bare(text))
}

/// `<`, characters of which `<` and `>` only escaped and no line ending, `>`.
#[tactic(auto, unfolding(doc_rules::specs::Destinations::angled))]
fn angled(text: &str) -> Option<&str>
    ensures { rest_of result ≡ angled (chars text.now) }
{
    let inside = is(text, '<')?;
    is(many_or_escaped(inside, is_angled), '>')
}

fn is_angled(c: char) -> bool
    ensures { result ≡ none_of (codes "<>\n\r") c }
{
    !matches!(c, '<' | '>' | '\n' | '\r')
}

/// Characters without `<` at their front, spaces and ASCII controls, their parentheses balanced.
#[tactic(auto, unfolding(doc_rules::specs::Destinations::bare))]
fn bare(text: &str) -> Option<&str>
    ensures { rest_of result ≡ bare (chars text.now) }
{
    match is(text, '<') {
        Some(_) => None,
        None => some_balanced(text),
    }
}

/// The longest run that is not empty of characters other than spaces and ASCII controls, their parentheses balanced.
fn some_balanced(text: &str) -> Option<&str>
    ensures { rest_of result ≡ passing (λ front. nat_lt 0 (length front)) (balanced 32)
        (chars text.now) }
{
    let rest = balanced(text);
    if front(text, rest).is_empty() {
        return None;
    }
    Some(rest)
}

#[tactic(auto, unfolding(doc_rules::specs::Characters::one_of))]
fn is_bare(c: char) -> bool
    ensures { result ≡ is_bare c }
{
    !(c.is_ascii_control() || matches!(c, ' ' | '(' | ')'))
}

/// A place in a destination, with how many parentheses are open there and the text from the outermost of these on.
#[derive(Clone, Copy)]
struct Place<'a> {
    rest: &'a str,
    levels: usize,
    outermost: &'a str,
}

/// The longest run of such characters, which may be empty.
fn balanced(text: &str) -> &str
    ensures value { Some (chars result.now) ≡ balanced 32 (chars text.now) }
    ensures end { IsRest (chars result.now) (chars text.now) }
{
    let mut place = Place {
        rest: text,
        levels: 0,
        outermost: text,
    };
    'characters: while let Some(next) = next_place(place) {
        place = next;
    }
    end_of_run(place)
}

/// The text from the outermost open parenthesis on, or from the place on where none is open.
fn end_of_run(place: Place) -> &str
    ensures { chars result.now ≡ end_of_run place.entry }
{
    if place.levels == 0 {
        place.rest
    } else {
        place.outermost
    }
}

/// The place behind the next character, or `None` where the run goes no further.
fn next_place(place: Place) -> Option<Place>
    requires { place.levels ≤ 32 }
    ensures { IsNextPlace place.entry result }
{
    if let Some(rest) = escaped_or_one(place.rest, is_bare) {
        return Some(Place { rest, ..place });
    }
    if let Some(rest) = is(place.rest, '(') {
        return behind_opening(place, rest);
    }
    match is(place.rest, ')') {
        Some(rest) => behind_closing(place, rest),
        None => None,
    }
}

/// The place behind an opening parenthesis.
fn behind_opening<'a>(place: Place<'a>, rest: &'a str) -> Option<Place<'a>>
    requires levels { place.levels ≤ 32 }
    requires opening { Some (chars rest.now) ≡ is 40 (chars place.rest.now) }
    ensures { IsNextPlace place.entry result }
{
    if place.levels >= LEVELS {
        return None;
    }
    Some(Place {
        rest,
        levels: place.levels + 1,
        outermost: end_of_run(place),
    })
}

/// The place behind a closing parenthesis.
fn behind_closing<'a>(place: Place<'a>, rest: &'a str) -> Option<Place<'a>>
    requires levels { place.levels ≤ 32 }
    requires closing { Some (chars rest.now) ≡ is 41 (chars place.rest.now) }
    ensures { IsNextPlace place.entry result }
{
    if place.levels == 0 {
        return None;
    }
    Some(Place {
        rest,
        levels: place.levels - 1,
        ..place
    })
}
