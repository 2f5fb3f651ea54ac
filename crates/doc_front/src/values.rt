//! Values of front matter that stand on one line.
ghost use Rattle.std.specs.Prelude.{◌≡◌, ◌==◌, false, chars, codes, option_and_then, IfOk};
ghost use Rattle.std.specs.List.{list_all, list_any};
ghost use Rattle.std.specs.Char.{is_control};
ghost use Rattle.doc_rules.specs.Characters.{none_of, one_of, first_or, last_or};
ghost use Rattle.doc_rules.specs.Parsers.{holds, word};
ghost use Rattle.doc_lines.specs.RestSteps.{rest_of};
ghost use Rattle.doc_front.specs.Titles.{before_last, double_quoted, is_bare, quoted, simple_value, single_quoted, some_text, value_of};
ghost use Rattle.doc_front.specs.ValueSteps.{behind_unit, value_shown};

use doc_blocks_starts::strip::strip_spaces;
use doc_lines::pushing::push_char;
use doc_lines::scan::character::{is, last_char, next_char};
use doc_lines::scan::word::through;
use doc_page_parts::failure::Memory;
use doc_page_parts::heap::{Heap, String};
use doc_page_parts::text::Text;

/// The value that a text is: in `"` without `"` and `\`, in `'` with `''` for one, or bare. Others of YAML's are none here.
#[tactic(auto, unfolding(crate::specs::Titles::simple_value))]
pub(crate) fn simple_value(heap: Heap, text: &str) -> Result<Option<Text>, Memory>
    ensures { IfOk result (λ value. value_shown value ≡ simple_value (chars text.now)) }
{
    if has_control(text) {
        return Ok(None);
    }
    value_of(heap, text)
}

fn has_control(text: &str) -> bool
    ensures { result ≡ list_any is_control (chars text.now) }
{
    text.chars().any(|c| c.is_control())
}

/// The value that is written in quotes or bare.
#[tactic(auto, unfolding(crate::specs::Titles::value_of))]
fn value_of(heap: Heap, text: &str) -> Result<Option<Text>, Memory>
    ensures { IfOk result (λ value. value_shown value ≡ value_of (chars text.now)) }
{
    if let Some(rest) = is(text, '"') {
        return double_quoted(heap, rest);
    }
    if let Some(rest) = is(text, '\'') {
        return single_quoted(heap, rest);
    }
    if !is_bare(text) {
        return Ok(None);
    }
    Ok(Some(Text::copy_of(heap, text)?))
}

/// What stands in `"`, of which the first stands before the text.
#[tactic(auto, unfolding(crate::specs::Titles::double_quoted))]
fn double_quoted(heap: Heap, text: &str) -> Result<Option<Text>, Memory>
    ensures { IfOk result (λ value. value_shown value
        ≡ option_and_then double_quoted (quoted 34 (chars text.now))) }
{
    let Some(inside) = quoted(text, '"') else {
        return Ok(None);
    };
    if !stands_for_itself(inside) {
        return Ok(None);
    }
    Ok(Some(Text::copy_of(heap, inside)?))
}

/// Whether a text has neither `"` nor `\`.
fn stands_for_itself(text: &str) -> bool
    ensures { result ≡ list_all (none_of (codes "\"\\")) (chars text.now) }
{
    text.chars().all(|c| !matches!(c, '"' | '\\'))
}

/// What stands in `'`, of which the first stands before the text.
fn single_quoted(heap: Heap, text: &str) -> Result<Option<Text>, Memory>
    ensures { IfOk result (λ value. value_shown value
        ≡ option_and_then (single_quoted false) (quoted 39 (chars text.now))) }
{
    let Some(inside) = quoted(text, '\'') else {
        return Ok(None);
    };
    undoubled(heap, inside)
}

/// The text with one `'` for each two, where no other stands in it.
fn undoubled(heap: Heap, text: &str) -> Result<Option<Text>, Memory>
    ensures { IfOk result (λ value. value_shown value ≡ single_quoted false (chars text.now)) }
{
    let mut out = String::with_capacity(heap, text.len())?;
    let mut rest = text;
    'characters: while let Some((c, behind)) = next_char(rest) {
        let Some(next) = behind_unit(c, behind) else {
            return Ok(None);
        };
        push_char(&mut out, c)?;
        rest = next;
    }
    Ok(Some(Text::new(out)))
}

/// What stands behind a character, and behind the second `'` where it is the first of two.
#[tactic(auto, unfolding(crate::specs::ValueSteps::behind_unit))]
fn behind_unit(c: char, behind: &str) -> Option<&str>
    ensures { rest_of result ≡ behind_unit c (chars behind.now) }
{
    if c == '\'' {
        is(behind, '\'')
    } else {
        Some(behind)
    }
}

/// What stands before a quotation mark at the end, stripped and not empty.
#[tactic(auto, unfolding(crate::specs::Titles::quoted))]
fn quoted(text: &str, mark: char) -> Option<&str>
    ensures { rest_of result ≡ quoted mark (chars text.now) }
{
    some_text(strip_spaces(before_last(text, mark)?))
}

/// The text before its last character, where that is this one.
fn before_last(text: &str, mark: char) -> Option<&str>
    ensures { rest_of result ≡ before_last mark (chars text.now) }
{
    let (front, last) = last_char(text)?;
    if last == mark { Some(front) } else { None }
}

/// A text, where it is not empty.
fn some_text(text: &str) -> Option<&str>
    ensures { rest_of result ≡ some_text (chars text.now) }
{
    match next_char(text) {
        Some(_) => Some(text),
        None => None,
    }
}

/// Whether a text stands for itself.
#[tactic(auto, unfolding(crate::specs::Titles::is_bare))]
fn is_bare(text: &str) -> bool
    ensures { result ≡ is_bare (chars text.now) }
{
    !begins_with_mark(text)
        && !has_word(text, b": ")
        && !has_word(text, b" #")
        && !ends_with_colon(text)
}

/// Whether a text begins with a character that means something in YAML. An empty one does.
fn begins_with_mark(text: &str) -> bool
    ensures { result ≡ one_of (codes "[]{},&*!|>'\"%@`#-?:") (first_or 35 (chars text.now)) }
{
    match next_char(text) {
        Some((c, _)) => is_mark(c),
        None => true,
    }
}

fn is_mark(c: char) -> bool
    ensures { result ≡ one_of (codes "[]{},&*!|>'\"%@`#-?:") c }
{
    matches!(
        c,
        '[' | ']'
            | '{'
            | '}'
            | ','
            | '&'
            | '*'
            | '!'
            | '|'
            | '>'
            | '\''
            | '"'
            | '%'
            | '@'
            | '`'
            | '#'
            | '-'
            | '?'
            | ':'
    )
}

fn has_word(text: &str, letters: &[u8]) -> bool
    ensures { result ≡ holds (word letters.now) (chars text.now) }
{
    through(text, letters).is_some()
}

/// Whether a text ends with `:`. An empty one does.
fn ends_with_colon(text: &str) -> bool
    ensures { result ≡ (last_or 58 (chars text.now) == 58) }
{
    match last_char(text) {
        Some((_, c)) => c == ':',
        None => true,
    }
}
