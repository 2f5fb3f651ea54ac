//! Plain texts of inlines (this project's choice).
ghost use Rattle.std.specs.Prelude.{◌≡◌, [], ◌∷◌, ◌++◌, chars, encode_utf8_all, string_bytes, IfOk, OnOk};
ghost use Rattle.doc_rules.specs.CodeSpans.{spaced};
ghost use Rattle.doc_rules.specs.PlainTexts.{plain_text};
ghost use Rattle.doc_lines.specs.Entities.{characters};
ghost use Rattle.doc_inlines_marks.specs.Views.{inlines_shown};
ghost use Rattle.doc_html.specs.InlineSteps.{mark_plain};

use crate::code::first_line;
use doc_inlines_marks::mark_ref::MarkRef;
use doc_lines::pushing::push_characters;
use doc_page_parts::failure::Memory;
use doc_page_parts::heap::{Heap, String};
use doc_page_parts::text::Text;

/// The plain texts of inlines, joined: texts and code as they are, a line break as one space, raw HTML as nothing.
pub(crate) fn plain_text(heap: Heap, marks: &[MarkRef]) -> Result<Text, Memory>
    ensures { IfOk result (λ text. text ≡ encode_utf8_all (plain_text (inlines_shown marks.now))) }
{
    let mut out = String::with_capacity(heap, room_of(marks))?;
    for mark in marks {
        push_mark(&mut out, mark)?;
    }
    Ok(Text::new(out))
}

/// How many bytes the plain text of marks takes: a guess, on which nothing rests.
fn room_of(marks: &[MarkRef]) -> usize {
    let mut room: usize = 0;
    for mark in marks {
        room = room.saturating_add(room_of_mark(mark));
    }
    room
}

fn room_of_mark(mark: &MarkRef) -> usize {
    match mark {
        MarkRef::Text(text) => text.len(),
        MarkRef::Code(text) => text.len(),
        MarkRef::Reference(reference) => reference.source.len(),
        MarkRef::Soft | MarkRef::Hard => 1,
        MarkRef::Raw(_) | MarkRef::Start(_) | MarkRef::End(_) => 0,
    }
}

/// Adds the plain text of a mark.
fn push_mark(out: &mut String, mark: &MarkRef) -> Result<(), Memory>
    ensures { OnOk result (string_bytes out.new ≡ string_bytes out.old
        ++ encode_utf8_all (mark_plain mark.now)) }
{
    match mark {
        MarkRef::Text(text) => push_str(out, text),
        MarkRef::Code(text) => push_spaced(out, text),
        MarkRef::Soft => push_space(out),
        MarkRef::Hard => push_space(out),
        MarkRef::Reference(reference) => push_both(out, reference.those),
        MarkRef::Raw(_) => Ok(()),
        MarkRef::Start(_) => Ok(()),
        MarkRef::End(_) => Ok(()),
    }
}

/// Adds a text.
fn push_str(out: &mut String, text: &str) -> Result<(), Memory>
    ensures { OnOk result (string_bytes out.new ≡ string_bytes out.old
        ++ encode_utf8_all (chars text.now)) }
{
    out.push_str(text)?;
    Ok(())
}

/// Adds one or two characters.
fn push_both(out: &mut String, those: (char, Option<char>)) -> Result<(), Memory>
    ensures { OnOk result (string_bytes out.new ≡ string_bytes out.old
        ++ encode_utf8_all (characters those)) }
{
    push_characters(out, those)?;
    Ok(())
}

/// Adds a space.
fn push_space(out: &mut String) -> Result<(), Memory>
    ensures { OnOk result (string_bytes out.new ≡ string_bytes out.old
        ++ encode_utf8_all (32 ∷ [])) }
{
    out.push_str(" ")?;
    Ok(())
}

/// Adds a text, with a space for each line ending.
fn push_spaced(out: &mut String, text: &str) -> Result<(), Memory>
    ensures { OnOk result (string_bytes out.new ≡ string_bytes out.old
        ++ encode_utf8_all (spaced (chars text.now))) }
{
    let mut rest = text;
    'lines: while let Some((line, behind)) = first_line(rest) {
        push_str(out, line)?;
        push_space(out)?;
        rest = behind;
    }
    push_str(out, rest)?;
    Ok(())
}
