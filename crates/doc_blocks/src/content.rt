//! The lines of a text, cut off one by one, and what is read of a line: it is without its ending, and U+0000 reads as U+FFFD (CommonMark
//! 0.31.2, sections 2.1 and 2.3).
ghost use Rattle.std.specs.Prelude.{◌≡◌, ◌<◌, true, false, chars, length, map, string_bytes, IfOk};
ghost use Rattle.doc_rules.specs.Characters.{is_ending};
ghost use Rattle.doc_rules.specs.Lines.{secure_char};
ghost use Rattle.doc_lines.specs.RestSteps.{IsCutBefore};
ghost use Rattle.doc_blocks.specs.ContentSteps.{ends_plain, behind_ending, IsFirstLine};

use doc_lines::pushing::push_char;
use doc_lines::scan::character::{is, next_char};
use doc_lines::scan::front::front;
use doc_lines::scan::until::until;
use doc_page_parts::failure::Memory;
use doc_page_parts::heap::{Heap, String};
use memchr::memchr3;

/// The first line of a text, without its ending, and the text behind it.
#[derive(Clone, Copy)]
pub(crate) struct FirstLine<'a> {
    pub(crate) line: &'a str,
    pub(crate) holds_null: bool,
    pub(crate) rest: &'a str,
}

/// The first line of a text that isn't empty. It is passed once, unless it holds U+0000.
pub(crate) fn first_line(text: &str) -> FirstLine<'_>
    requires { 0 < length text.now }
    ensures line { IsFirstLine (chars text.now) (chars result.line.now) (chars result.rest.now) }
    ensures plain { result.holds_null ≡ false
        → map secure_char (chars result.line.now) ≡ chars result.line.now }
    ensures shorter { length (chars result.rest.now) < length (chars text.now) }
{
    let stop = from_end(text);
    if is(stop, '\0').is_some() {
        return null_line(text);
    }
    FirstLine {
        line: front(text, stop),
        holds_null: false,
        rest: behind_ending(stop),
    }
}

/// The same for a line that holds U+0000.
fn null_line(text: &str) -> FirstLine<'_>
    requires { 0 < length text.now }
    ensures line { IsFirstLine (chars text.now) (chars result.line.now) (chars result.rest.now) }
    ensures null { result.holds_null ≡ true }
    ensures shorter { length (chars result.rest.now) < length (chars text.now) }
{
    let stop = until(text, is_ending);
    FirstLine {
        line: front(text, stop),
        holds_null: true,
        rest: behind_ending(stop),
    }
}

/// The text from its first line ending or U+0000 on, or its end where it has none.
fn from_end(text: &str) -> &str
    ensures { IsCutBefore ends_plain (chars text.now) (chars result.now) }
{
    match memchr3(b'\n', b'\r', b'\0', text.as_bytes()) {
        Some(place) => &text[place..],
        None => "",
    }
}

fn is_ending(byte: u8) -> bool
    ensures { result ≡ is_ending byte }
{
    matches!(byte, b'\n' | b'\r')
}

/// The text behind the line ending at its front, if one stands there.
fn behind_ending(text: &str) -> &str
    ensures { chars result.now ≡ behind_ending (chars text.now) }
{
    if let Some(rest) = is(text, '\n') {
        return rest;
    }
    let Some(rest) = is(text, '\r') else {
        return text;
    };
    match is(rest, '\n') {
        Some(behind) => behind,
        None => rest,
    }
}

/// The text with U+FFFD for each U+0000.
pub(crate) fn secure_text(heap: Heap, text: &str) -> Result<String, Memory>
    ensures { IfOk result (λ secure. chars (string_bytes secure)
        ≡ map secure_char (chars text.now)) }
{
    let mut secure = String::new(heap);
    let mut rest = text;
    'characters: while let Some((c, behind)) = next_char(rest) {
        push_char(&mut secure, secure_char(c))?;
        rest = behind;
    }
    Ok(secure)
}

#[tactic(auto, unfolding(doc_rules::specs::Lines::secure_char))]
fn secure_char(c: char) -> char
    ensures { result ≡ secure_char c }
{
    if c == '\0' { '\u{fffd}' } else { c }
}
