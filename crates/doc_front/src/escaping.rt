//! Titles as headings.
ghost use Rattle.std.specs.Prelude.{◌≡◌, ◌++◌, chars, flat_map, string_bytes, IfOk, OnOk};
ghost use Rattle.doc_front.specs.Front.{escaped_char, headed};

use doc_lines::pushing::{push_char, push_characters, push_text};
use doc_page_parts::failure::Memory;
use doc_page_parts::heap::{Heap, String};
use doc_page_parts::text::Text;

/// A title as a heading of level 1, and this text behind it. Each ASCII punctuation character of the title stands behind a `\`, so that
/// it is read as itself.
#[tactic(auto, unfolding(crate::specs::Front::headed))]
pub(crate) fn headed(heap: Heap, title: &str, behind: &str) -> Result<Text, Memory>
    ensures { IfOk result (λ text. chars text ≡ headed (chars title.now) (chars behind.now)) }
{
    let escaped = escaped(heap, title)?;
    let mut out = String::with_capacity(heap, room_of(&escaped, behind))?;
    push_text(&mut out, "# ")?;
    push_text(&mut out, escaped.as_str())?;
    push_text(&mut out, "\n\n")?;
    push_text(&mut out, behind)?;
    Ok(Text::new(out))
}

/// How many bytes the two take with what stands round them: a guess, on which nothing rests.
fn room_of(title: &String, behind: &str) -> usize {
    title.len().saturating_add(behind.len()).saturating_add(4)
}

/// A title with a `\` before each ASCII punctuation character.
fn escaped(heap: Heap, title: &str) -> Result<String, Memory>
    ensures { IfOk result (λ out. chars (string_bytes out)
        ≡ flat_map escaped_char (chars title.now)) }
{
    let mut out = String::with_capacity(heap, title.len())?;
    'characters: for c in title.chars() {
        push_escaped(&mut out, c)?;
    }
    Ok(out)
}

#[tactic(auto, unfolding(crate::specs::Front::escaped_char))]
fn push_escaped(out: &mut String, c: char) -> Result<(), Memory>
    ensures { OnOk result (chars (string_bytes out.new) ≡ chars (string_bytes out.old)
        ++ escaped_char c) }
{
    if !c.is_ascii_punctuation() {
        return push_char(out, c);
    }
    push_characters(out, ('\\', Some(c)))
}
