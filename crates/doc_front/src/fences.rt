//! Where front matter begins and ends.
ghost use Rattle.std.specs.Prelude.{◌≡◌, ◌==◌, ◌||◌, chars, codes};
ghost use Rattle.std.specs.Char.{is_ascii_alphabetic, is_ascii_alphanumeric};
ghost use Rattle.doc_rules.specs.Characters.{one_of, is_blank_text};
ghost use Rattle.doc_rules.specs.LeafStarts.{is_end};
ghost use Rattle.doc_rules.specs.Lines.{lines_of};
ghost use Rattle.doc_front.specs.Front.{closed, front_in, is_fence, is_key_line, is_shown, opened, shows_front};
ghost use Rattle.doc_front.specs.FrontSteps.{lines_in, places_of};

use crate::lines::first_line;
use doc_lines::scan::character::{is, next_char, one};
use doc_lines::scan::run::many;
use doc_lines::scan::white_space::is_space_or_tab;
use doc_lines::scan::word::word;

/// Front matter, and what stands behind it.
#[derive(Clone, Copy)]
pub(crate) struct Matter<'a> {
    /// The text from the second line of the front matter on.
    pub(crate) inside: &'a str,
    pub(crate) behind: &'a str,
}

/// The front matter that a text begins with.
#[tactic(auto, unfolding(crate::specs::Front::front_in))]
pub(crate) fn front_in(text: &str) -> Option<Matter<'_>>
    ensures { places_of result ≡ front_in (lines_of (chars text.now)) }
{
    let inside = opened(text)?;
    let behind = closed(inside)?;
    Some(Matter { inside, behind })
}

/// The text behind the line that front matter begins with.
fn opened(text: &str) -> Option<&str>
    ensures { lines_in result ≡ opened (lines_of (chars text.now)) }
{
    let (line, rest) = first_line(text)?;
    if !is_fence(line) {
        return None;
    }
    if !is_shown(rest) {
        return None;
    }
    Some(rest)
}

/// The text behind the first line `---`.
fn closed(text: &str) -> Option<&str>
    ensures { lines_in result ≡ closed (lines_of (chars text.now)) }
{
    let mut rest = text;
    'lines: while let Some((line, behind)) = first_line(rest) {
        if is_fence(line) {
            return Some(behind);
        }
        rest = behind;
    }
    None
}

/// Whether the first line shows, behind a line `---`, that this begins front matter.
fn is_shown(text: &str) -> bool
    ensures { result ≡ is_shown (lines_of (chars text.now)) }
{
    match first_line(text) {
        Some((line, _)) => shows_front(line),
        None => false,
    }
}

#[tactic(auto, unfolding(crate::specs::Front::shows_front))]
fn shows_front(line: &str) -> bool
    ensures { result ≡ shows_front (chars line.now) }
{
    is_fence(line) || is(line, '#').is_some() || is_key_line(line)
}

/// Whether a line is `---`, with spaces and tabs behind it.
#[tactic(auto, unfolding(crate::specs::Front::is_fence))]
pub(crate) fn is_fence(line: &str) -> bool
    ensures { result ≡ is_fence (chars line.now) }
{
    match word(line, b"---") {
        Some(rest) => is_blank(rest),
        None => false,
    }
}

/// Whether nothing but spaces and tabs stands here.
pub(crate) fn is_blank(text: &str) -> bool
    ensures { result ≡ is_blank_text (chars text.now) }
{
    text.chars().all(is_space_or_tab)
}

/// Whether a line has a key, `:`, and then its end, a space or a tab.
#[tactic(auto, unfolding(crate::specs::Front::is_key_line))]
fn is_key_line(line: &str) -> bool
    ensures { result ≡ is_key_line (chars line.now) }
{
    let Some(rest) = one(line, begins_key) else {
        return false;
    };
    match is(many(rest, is_in_key), ':') {
        Some(behind) => is_end(behind),
        None => false,
    }
}

fn begins_key(c: char) -> bool
    ensures { result ≡ (is_ascii_alphabetic c || (c == 95)) }
{
    c.is_ascii_alphabetic() || c == '_'
}

fn is_in_key(c: char) -> bool
    ensures { result ≡ (is_ascii_alphanumeric c || one_of (codes "_-.") c) }
{
    c.is_ascii_alphanumeric() || matches!(c, '_' | '-' | '.')
}

/// Whether the line ends here, or a space or a tab stands here.
fn is_end(text: &str) -> bool
    ensures { result ≡ is_end (chars text.now) }
{
    match next_char(text) {
        Some((c, _)) => is_space_or_tab(c),
        None => true,
    }
}
