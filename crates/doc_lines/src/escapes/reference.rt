//! Character references (CommonMark 0.31.2, section 2.5), behind their `&`.
ghost use Rattle.std.specs.Prelude.{◌≡◌, [], ◌∷◌, chars, IfSome};
ghost use Rattle.doc_rules.specs.Rests.{IsRest};
ghost use Rattle.doc_rules.specs.Parsers.{before, inside};
ghost use Rattle.std.specs.Prelude.{drop, codes};
ghost use Rattle.std.specs.Char.{is_ascii_digit, is_ascii_hexdigit, is_ascii_alphanumeric};
ghost use Rattle.doc_rules.specs.Characters.{one_of};
ghost use Rattle.doc_rules.specs.Escapes.{decimal_reference, hexadecimal_reference, number, code_point, by_name, character_reference};
ghost use Rattle.doc_lines.specs.MeaningSteps.{meaning_of, behind_of};

use super::number::{code_point, decimal_number, hexadecimal_number};
use crate::entities::Entities;
use crate::scan::character::{is, one};
use crate::scan::front::front;
use crate::scan::run::{at_most, some};

/// What the reference at the front of a text means, and the text behind it.
#[tactic(auto, unfolding(doc_rules::specs::Escapes::character_reference))]
pub fn character_reference<'a>(
    entities: &Entities,
    text: &'a str,
) -> Option<((char, Option<char>), &'a str)>
    ensures value { meaning_of result (chars text.now)
        ≡ character_reference entities.now (chars text.now) }
    ensures end { IfSome result (λ found. IsRest (chars found.1.now) (chars text.now)) }
{
    if let Some((c, rest)) = decimal_reference(text) {
        return Some(((c, None), rest));
    }
    if let Some((c, rest)) = hexadecimal_reference(text) {
        return Some(((c, None), rest));
    }
    named_reference(entities, text)
}

/// `#`, 1 to 7 digits, `;`: the character with that number.
#[tactic(auto, unfolding(doc_rules::specs::Escapes::decimal_reference))]
fn decimal_reference(text: &str) -> Option<(char, &str)>
    ensures behind { behind_of result ≡ decimal_reference (chars text.now) }
    ensures value { IfSome result (λ found. found.0 ∷ []
        ≡ code_point (number 10 (inside (before (chars found.1.now) (chars text.now))))) }
    ensures end { IfSome result (λ found. IsRest (chars found.1.now) (chars text.now)) }
{
    let digits = is(text, '#')?;
    let second = one(digits, is_digit)?;
    let end = at_most(second, 6, is_digit);
    let rest = is(end, ';')?;
    Some((code_point(decimal_number(front(digits, end))), rest))
}

/// `#x` or `#X`, 1 to 6 hexadecimal digits, `;`: the character with that number.
#[tactic(auto, unfolding(doc_rules::specs::Escapes::hexadecimal_reference))]
fn hexadecimal_reference(text: &str) -> Option<(char, &str)>
    ensures behind { behind_of result ≡ hexadecimal_reference (chars text.now) }
    ensures value { IfSome result (λ found. found.0 ∷ []
        ≡ code_point (number 16 (drop 1 (inside (before (chars found.1.now) (chars text.now)))))) }
    ensures end { IfSome result (λ found. IsRest (chars found.1.now) (chars text.now)) }
{
    let mark = is(text, '#')?;
    let digits = one(mark, is_x)?;
    let second = one(digits, is_hexadecimal_digit)?;
    let end = at_most(second, 5, is_hexadecimal_digit);
    let rest = is(end, ';')?;
    Some((code_point(hexadecimal_number(front(digits, end))), rest))
}

/// Letters and digits, `;`: the characters of that name. A name in no table is text.
#[tactic(auto, unfolding(doc_rules::specs::Escapes::by_name, doc_rules::specs::Escapes::named_reference))]
fn named_reference<'a>(
    entities: &Entities,
    text: &'a str,
) -> Option<((char, Option<char>), &'a str)>
    ensures value { meaning_of result (chars text.now) ≡ by_name entities.now (chars text.now) }
    ensures end { IfSome result (λ found. IsRest (chars found.1.now) (chars text.now)) }
{
    let end = some(text, is_letter_or_digit)?;
    let behind = is(end, ';')?;
    let those = entities.find(front(text, end))?;
    Some((those, behind))
}

fn is_digit(c: char) -> bool
    ensures { result ≡ is_ascii_digit c }
{
    c.is_ascii_digit()
}

fn is_hexadecimal_digit(c: char) -> bool
    ensures { result ≡ is_ascii_hexdigit c }
{
    c.is_ascii_hexdigit()
}

fn is_letter_or_digit(c: char) -> bool
    ensures { result ≡ is_ascii_alphanumeric c }
{
    c.is_ascii_alphanumeric()
}

fn is_x(c: char) -> bool
    ensures { result ≡ one_of (codes "xX") c }
{
    matches!(c, 'x' | 'X')
}
