//! Where a snippet begins and ends, in characters.

ghost use Rattle.std.specs.Prelude.{◌≡◌, ◌+◌, ◌<◌, ◌^◌, chars, not};
ghost use Rattle.std.specs.List.{list_any, position_or_len, suffix_len};
ghost use Rattle.doc_rules.specs.Characters.{is_white};
ghost use Rattle.doc_people.specs.Limits.{snippet_limit};
ghost use Rattle.doc_people.specs.Snippets.{end_after, end_among, start_before};

use crate::parts::{character_count, split_at};
use doc_lines::characters::is_white;
use doc_lines::scan::character::last_char;

/// How many characters of a snippet stand before the first match at most.
const LEAD_LIMIT: usize = 60;

/// How many characters a snippet has at most.
const SNIPPET_LIMIT: usize = 200;

/// Where the snippet of a text begins, by where its first match does.
pub fn start_before(at: usize, text: &str) -> usize
    ensures { result ≡ start_before at (chars text.now) }
{
    if at <= LEAD_LIMIT {
        return 0;
    }
    let first = at - LEAD_LIMIT;
    let (_, lead) = split_at(text, first - 1);
    let (lead, _) = split_at(lead, LEAD_LIMIT);
    first + white_at(lead)
}

/// Where the snippet of a text ends, by where it begins.
pub fn end_after(start: usize, text: &str) -> usize
    ensures { result ≡ end_after start (chars text.now) }
{
    let count = character_count(text);
    if count.saturating_sub(start) <= SNIPPET_LIMIT {
        return count;
    }
    let (_, following) = split_at(text, start + 1);
    let (following, _) = split_at(following, SNIPPET_LIMIT);
    end_among(start, following)
}

/// Where a snippet ends, by the characters behind the first one of it.
fn end_among(start: usize, following: &str) -> usize
    requires { start + snippet_limit < 2 ^ 64 }
    ensures { result ≡ end_among start (chars following.now) }
{
    let end = start + SNIPPET_LIMIT;
    if has_white(following) {
        return end.saturating_sub(last_word_len(following));
    }
    end
}

/// Where the first white space of a text stands, in characters, or else its length.
fn white_at(text: &str) -> usize
    ensures { result ≡ position_or_len is_white (chars text.now) }
{
    text.chars().take_while(|c| !is_white(*c)).count()
}

/// Whether a text has white space.
fn has_white(text: &str) -> bool
    ensures { result ≡ list_any is_white (chars text.now) }
{
    text.chars().any(is_white)
}

/// How many characters stand behind the last white space of a text, or else its length.
fn last_word_len(text: &str) -> usize
    ensures { result ≡ suffix_len (λ c. not (is_white c)) (chars text.now) }
{
    let mut front = text;
    let mut count = 0;
    while let Some((rest, last)) = last_char(front) {
        if is_white(last) {
            return count;
        }
        count += 1;
        front = rest;
    }
    count
}
