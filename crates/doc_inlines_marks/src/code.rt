//! The text of a code span (CommonMark 0.31.2, section 6.1).
ghost use Rattle.std.specs.Prelude.{◌≡◌, ◌==◌, ◌||◌, ◌&&◌, chars};
ghost use Rattle.std.specs.List.{list_all};
ghost use Rattle.doc_rules.specs.CodeSpans.{is_code_space};
ghost use Rattle.doc_inlines_marks.specs.CodeSteps.{IsBetween};
ghost use Rattle.doc_inlines_marks.specs.RunSteps.{IsCodeText};

use doc_lines::scan::character::{last_char, next_char};

/// The text without one space at each end, where both ends have one and not all is spaces. A line ending counts as a space.
pub(crate) fn code_text(text: &str) -> &str
    ensures { IsCodeText (chars result.now) (chars text.now) }
{
    let Some(inner) = between_spaces(text) else {
        return text;
    };
    if is_all_spaces(text) {
        return text;
    }
    inner
}

/// The text between its first and its last character, where both are spaces.
fn between_spaces(text: &str) -> Option<&str>
    ensures { IsBetween (chars text.now) result }
{
    let (first, rest) = next_char(text)?;
    let (inner, last) = last_char(rest)?;
    if are_spaces(first, last) {
        Some(inner)
    } else {
        None
    }
}

fn is_all_spaces(text: &str) -> bool
    ensures { result ≡ list_all is_code_space (chars text.now) }
{
    text.chars().all(is_code_space)
}

fn are_spaces(first: char, last: char) -> bool
    ensures { result ≡ (is_code_space first && is_code_space last) }
{
    is_code_space(first) && is_code_space(last)
}

fn is_code_space(c: char) -> bool
    ensures { result ≡ is_code_space c }
{
    c == ' ' || c == '\n'
}
