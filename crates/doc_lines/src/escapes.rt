//! Texts with their backslash escapes and character references read (CommonMark 0.31.2, sections 2.4 and 2.5).
ghost use Rattle.std.specs.Prelude.{◌≡◌, chars, IfOk, IfSome};
ghost use Rattle.doc_rules.specs.Rests.{IsRest};
ghost use Rattle.doc_rules.specs.Escapes.{escape_or_reference, backslash_escape, unescape};
ghost use Rattle.doc_lines.specs.MeaningSteps.{meaning_of};

mod number;
mod reference;

use crate::entities::Entities;
use crate::pushing::{push_characters, push_text};
use crate::scan::character::next_char;
use crate::scan::front::front;
use doc_page_parts::failure::Memory;
use doc_page_parts::heap::{Heap, String};
use doc_page_parts::text::Text;
pub use reference::character_reference;

/// The text with its backslash escapes and character references read.
///
/// Takes room for as many bytes as the text has, once. It grows further only where a name of a table that was handed in is
/// shorter than its characters.
pub fn unescape(heap: Heap, text: &str, entities: &Entities) -> Result<Text, Memory>
    ensures { IfOk result (λ read. chars read ≡ unescape entities.now (chars text.now)) }
{
    let mut out = String::with_capacity(heap, text.len())?;
    let mut start = text;
    let mut rest = text;
    'characters: while let Some((c, behind)) = next_char(rest) {
        let Some((those, after)) = escape_or_reference(entities, c, behind) else {
            rest = behind;
            continue;
        };
        push_text(&mut out, front(start, rest))?;
        push_characters(&mut out, those)?;
        start = after;
        rest = after;
    }
    push_text(&mut out, start)?;
    Ok(Text::new(out))
}

/// What the escape or the reference that this character begins means, and the text behind it.
#[tactic(auto, unfolding(doc_rules::specs::Escapes::escape_or_reference))]
fn escape_or_reference<'a>(
    entities: &Entities,
    c: char,
    rest: &'a str,
) -> Option<((char, Option<char>), &'a str)>
    ensures value { meaning_of result (chars rest.now)
        ≡ escape_or_reference entities.now c (chars rest.now) }
    ensures end { IfSome result (λ found. IsRest (chars found.1.now) (chars rest.now)) }
{
    match c {
        '\\' => backslash_escape(rest),
        '&' => character_reference(entities, rest),
        _ => None,
    }
}

/// The character that is escaped behind a backslash: ASCII punctuation.
#[tactic(auto, unfolding(doc_rules::specs::Escapes::backslash_escape), using(crate::proofs::Steps::one_behind))]
fn backslash_escape(text: &str) -> Option<((char, Option<char>), &str)>
    ensures value { meaning_of result (chars text.now) ≡ backslash_escape (chars text.now) }
    ensures end { IfSome result (λ found. IsRest (chars found.1.now) (chars text.now)) }
{
    let (c, rest) = next_char(text)?;
    if c.is_ascii_punctuation() {
        Some(((c, None), rest))
    } else {
        None
    }
}
