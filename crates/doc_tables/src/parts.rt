//! The parts of a line between its `|`.
ghost use Rattle.std.specs.Prelude.{◌≡◌, ◌==◌, ◌&&◌, not, ◌∷◌, false, chars};
ghost use Rattle.doc_rules.specs.Characters.{is_blank_text};
ghost use Rattle.doc_rules.specs.Rests.{IsRest};
ghost use Rattle.doc_lines.specs.RestSteps.{rest_of};
ghost use Rattle.doc_tables.specs.CellSteps.{end_of_part, parts_in};
ghost use Rattle.doc_rules.specs.Tables.{parts, without_pipe};

use doc_lines::scan::character::{is, next_char};
use doc_lines::scan::front::front;
use doc_lines::scan::white_space::is_space_or_tab;

/// The line without a `|` at its front.
#[tactic(auto, unfolding(doc_rules::specs::Tables::without_pipe))]
pub(crate) fn without_pipe(line: &str) -> &str
    ensures { chars result.now ≡ without_pipe (chars line.now) }
{
    is(line, '|').unwrap_or(line)
}

/// What stands before the first `|` that no backslash stands directly before, and the text behind that `|`, if there is one.
pub(crate) fn first_part(text: &str) -> (&str, Option<&str>)
    ensures { parts (chars text.now) ≡ chars result.0.now ∷ parts_in (rest_of result.1) }
{
    let end = end_of_part(text);
    (front(text, end), is(end, '|'))
}

/// The text from that `|` on.
fn end_of_part(text: &str) -> &str
    ensures value { chars result.now ≡ end_of_part false (chars text.now) }
    ensures end { IsRest (chars result.now) (chars text.now) }
{
    let mut rest = text;
    let mut escaped = false;
    'characters: while let Some((c, behind)) = next_char(rest) {
        if ends_part(c, escaped) {
            return rest;
        }
        escaped = c == '\\';
        rest = behind;
    }
    rest
}

/// Whether a character ends a part, by whether a backslash stands directly before it.
fn ends_part(c: char, escaped: bool) -> bool
    ensures { result ≡ ((c == 124) && not escaped) }
{
    c == '|' && !escaped
}

/// Whether nothing but spaces and tabs stands here.
pub(crate) fn is_blank(text: &str) -> bool
    ensures { result ≡ is_blank_text (chars text.now) }
{
    text.chars().all(is_space_or_tab)
}
