//! Link titles (CommonMark 0.31.2, section 6.3).
ghost use Rattle.std.specs.Prelude.{◌≡◌, ◌==◌, ◌||◌, not, chars};
ghost use Rattle.doc_rules.specs.Characters.{is_space_or_tab};
ghost use Rattle.doc_rules.specs.Parsers.{begins, line_ending, many, ◌then◌, ◌or◌};
ghost use Rattle.doc_rules.specs.Destinations.{title_in, has_blank_line, title};
ghost use Rattle.doc_lines.specs.RestSteps.{rest_of};

use super::escaped::many_or_escaped;
use doc_lines::scan::character::{is, next_char};
use doc_lines::scan::front::front;
use doc_lines::scan::run::many;
use doc_lines::scan::white_space::{is_space_or_tab, line_ending};

/// A title in double quotes, in single quotes or in parentheses, without a blank line.
#[tactic(auto, unfolding(doc_rules::specs::Destinations::title))]
pub fn title(text: &str) -> Option<&str>
    ensures { rest_of result ≡ title (chars text.now) }
{
    let rest = enclosed(text)?;
    if has_blank_line(front(text, rest)) {
        return None;
    }
    Some(rest)
}

/// The same, but a blank line may stand inside.
fn enclosed(text: &str) -> Option<&str>
    ensures { rest_of result ≡ (title_in 34 34 or title_in 39 39 or title_in 40 41)
        (chars text.now) }
{
    title_in(text, '"', '"')
        .or_else(|| title_in(text, '\'', '\''))
        .or_else(|| title_in(text, '(', ')'))
}

/// All between these two, which stand inside only escaped.
fn title_in(text: &str, left: char, right: char) -> Option<&str>
    ensures { rest_of result ≡ title_in left right (chars text.now) }
{
    let inside = is(text, left)?;
    is(
        many_or_escaped(inside, |c| !(c == left || c == right)),
        right,
    )
}

/// Whether a blank line stands inside the text.
#[tactic(auto, unfolding(doc_rules::specs::Destinations::has_blank_line))]
fn has_blank_line(text: &str) -> bool
    ensures { result ≡ has_blank_line (chars text.now) }
{
    let mut rest = text;
    'characters: while let Some((_, behind)) = next_char(rest) {
        if begins_blank_line(rest) {
            return true;
        }
        rest = behind;
    }
    false
}

/// Whether the text begins with a line ending and a blank line behind it.
fn begins_blank_line(text: &str) -> bool
    ensures { result ≡ begins (line_ending then many is_space_or_tab then line_ending)
        (chars text.now) }
{
    match line_ending(text) {
        Some(line) => line_ending(many(line, is_space_or_tab)).is_some(),
        None => false,
    }
}
