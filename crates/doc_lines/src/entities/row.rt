//! A line of a table of character references.

ghost use Rattle.std.specs.Prelude.{◌≡◌, ◌<◌, ◌≤◌, true, length, option_map, Some, None, MatchOption};
ghost use Rattle.std.specs.List.{list_all};
ghost use Rattle.std.specs.Char.{digit_value, is_ascii_alphanumeric, is_ascii_hexdigit};
ghost use Rattle.doc_rules.specs.Escapes.{number};
ghost use Rattle.doc_lines.specs.Entities.{characters, entity_shown};
ghost use Rattle.doc_lines.specs.Tables.{at_space, character_of, entity_of, fields_characters, is_code, is_name, is_row};

use doc_page_parts::trimming::{is_blank, without_ending};

/// Whether a line is blank or gives an entity.
pub fn is_row(line: &str) -> bool
    ensures { result ≡ is_row line.now }
{
    is_blank(without_ending(line)) || entity_of(line).is_some()
}

/// The name and the characters that a line gives.
#[tactic(auto, unfolding(crate::specs::Tables::entity_of))]
pub fn entity_of(line: &str) -> Option<(&str, (char, Option<char>))>
    ensures { entity_shown result ≡ entity_of line.now }
{
    let (name, fields) = at_space(without_ending(line))?;
    if !is_name(name.as_bytes()) {
        return None;
    }
    Some((name, characters_of(fields)?))
}

/// The characters of one field or two.
fn characters_of(fields: &str) -> Option<(char, Option<char>)>
    ensures { option_map characters result ≡ fields_characters (at_space fields.now) fields.now }
{
    let Some((first, second)) = at_space(fields) else {
        return Some((character_of(fields)?, None));
    };
    Some((character_of(first)?, Some(character_of(second)?)))
}

/// The character whose code point 1 to 6 hexadecimal digits are.
fn character_of(field: &str) -> Option<char>
    ensures { result ≡ character_of field.now }
{
    if !is_code(field.as_bytes()) {
        return None;
    }
    char::from_u32(number_of(field.as_bytes()))
}

/// The number that hexadecimal digits are.
#[tactic(auto, unfolding(doc_rules::specs::Escapes::number))]
fn number_of(digits: &[u8]) -> u32
    requires length { length digits.now ≤ 6 }
    requires digits { list_all is_ascii_hexdigit digits.now ≡ true }
    ensures { result ≡ number 16 digits.now }
{
    let mut number = 0;
    for digit in digits {
        number = number * 16 + digit_value(*digit);
    }
    number
}

/// The value of a hexadecimal digit.
fn digit_value(digit: u8) -> u32
    requires { is_ascii_hexdigit digit ≡ true }
    ensures value { result ≡ digit_value digit }
    ensures bound { result < 16 }
{
    match digit {
        b'0'..=b'9' => (digit - b'0') as u32,
        b'A'..=b'F' => (digit - b'A') as u32 + 10,
        _ => (digit - b'a') as u32 + 10,
    }
}

fn is_code(field: &[u8]) -> bool
    ensures { result ≡ is_code field.now }
{
    !field.is_empty() && field.len() <= 6 && are_digits(field)
}

fn are_digits(field: &[u8]) -> bool
    ensures { result ≡ list_all is_ascii_hexdigit field.now }
{
    field.iter().all(|digit| digit.is_ascii_hexdigit())
}

fn is_name(name: &[u8]) -> bool
    ensures { result ≡ is_name name.now }
{
    let Some((first, rest)) = name.split_first() else {
        return false;
    };
    first.is_ascii_alphabetic() && are_letters_or_digits(rest) && rest.len() <= 31
}

fn are_letters_or_digits(text: &[u8]) -> bool
    ensures { result ≡ list_all is_ascii_alphanumeric text.now }
{
    text.iter().all(|byte| byte.is_ascii_alphanumeric())
}

/// What stands before the first space, and what behind it.
fn at_space(text: &str) -> Option<(&str, &str)>
    ensures { MatchOption result (at_space text.now ≡ None)
        (λ fields. at_space text.now ≡ Some (fields.0.now, fields.1.now)) }
{
    text.split_once(' ')
}
