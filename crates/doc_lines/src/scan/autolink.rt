//! Autolinks (CommonMark 0.31.2, section 6.5): what may stand between `<` and `>`.
ghost use Rattle.std.specs.Prelude.{◌≡◌, ◌||◌, not, Some, chars, codes, length};
ghost use Rattle.std.specs.Char.{is_ascii_alphabetic, is_ascii_control};
ghost use Rattle.doc_rules.specs.Characters.{one_of, first_or, last_or};
ghost use Rattle.doc_rules.specs.Parsers.{is, ◌then◌, repeated};
ghost use Rattle.doc_rules.specs.Autolinks.{is_scheme_char, scheme, uri, is_local_char, is_domain_char, is_domain_part, domain_part, mail};
ghost use Rattle.doc_lines.specs.RestSteps.{rest_of};

use super::character::{is, last_char, next_char, one};
use super::front::front;
use super::run::{at_most, many, some};

/// An absolute URI: a scheme, `:`, then anything but ASCII controls, spaces, `<` and `>`.
#[tactic(auto, unfolding(doc_rules::specs::Autolinks::uri))]
pub fn uri(text: &str) -> Option<&str>
    ensures { rest_of result ≡ uri (chars text.now) }
{
    let rest = is(scheme(text)?, ':')?;
    Some(many(rest, is_uri_char))
}

/// A letter, then letters, digits, `+`, `.` and `-`: 2 to 32 characters.
#[tactic(auto, unfolding(doc_rules::specs::Autolinks::scheme))]
pub fn scheme(text: &str) -> Option<&str>
    ensures { rest_of result ≡ scheme (chars text.now) }
{
    let rest = one(text, is_letter)?;
    let rest = one(rest, is_scheme_char)?;
    Some(at_most(rest, 30, is_scheme_char))
}

fn is_letter(c: char) -> bool
    ensures { result ≡ is_ascii_alphabetic c }
{
    c.is_ascii_alphabetic()
}

#[tactic(auto, unfolding(doc_rules::specs::Autolinks::is_scheme_char))]
fn is_scheme_char(c: char) -> bool
    ensures { result ≡ is_scheme_char c }
{
    c.is_ascii_alphanumeric() || matches!(c, '+' | '.' | '-')
}

fn is_uri_char(c: char) -> bool
    ensures { result ≡ not (is_ascii_control c || one_of (codes " <>") c) }
{
    !(c.is_ascii_control() || matches!(c, ' ' | '<' | '>'))
}

/// An address of mail.
#[tactic(auto, unfolding(doc_rules::specs::Autolinks::mail))]
pub fn mail(text: &str) -> Option<&str>
    ensures { rest_of result ≡ mail (chars text.now) }
{
    let rest = some(text, is_local_char)?;
    let rest = domain_part(is(rest, '@')?)?;
    Some(more_domain_parts(rest))
}

#[tactic(auto, unfolding(doc_rules::specs::Autolinks::is_local_char))]
fn is_local_char(c: char) -> bool
    ensures { result ≡ is_local_char c }
{
    c.is_ascii_alphanumeric() || is_local_sign(c)
}

fn is_local_sign(c: char) -> bool
    ensures { result ≡ one_of (codes ".!#$%&'*+/=?^_`{|}~-") c }
{
    matches!(
        c,
        '.' | '!'
            | '#'
            | '$'
            | '%'
            | '&'
            | '\''
            | '*'
            | '+'
            | '/'
            | '='
            | '?'
            | '^'
            | '_'
            | '`'
            | '{'
            | '|'
            | '}'
            | '~'
            | '-'
    )
}

/// The longest run of letters, digits and `-`, where it has 1 to 63 characters, of which neither the first nor the last is a
/// `-`. It is gone over twice, once for its end and once for its last character.
#[tactic(auto, unfolding(doc_rules::specs::Autolinks::domain_part))]
pub fn domain_part(text: &str) -> Option<&str>
    ensures { rest_of result ≡ domain_part (chars text.now) }
{
    let rest = many(text, is_domain_char);
    if is_domain_part(front(text, rest)) {
        Some(rest)
    } else {
        None
    }
}

#[tactic(auto, unfolding(doc_rules::specs::Autolinks::is_domain_char))]
fn is_domain_char(c: char) -> bool
    ensures { result ≡ is_domain_char c }
{
    c.is_ascii_alphanumeric() || c == '-'
}

#[tactic(auto, unfolding(doc_rules::specs::Autolinks::is_domain_part))]
fn is_domain_part(part: &str) -> bool
    ensures { result ≡ is_domain_part (chars part.now) }
{
    first_or_nul(part).is_ascii_alphanumeric()
        && last_or_nul(part).is_ascii_alphanumeric()
        && char_count(part) <= 63
}

fn first_or_nul(part: &str) -> char
    ensures { result ≡ first_or 0 (chars part.now) }
{
    match next_char(part) {
        Some((c, _)) => c,
        None => '\0',
    }
}

fn last_or_nul(part: &str) -> char
    ensures { result ≡ last_or 0 (chars part.now) }
{
    match last_char(part) {
        Some((_, c)) => c,
        None => '\0',
    }
}

fn char_count(part: &str) -> usize
    ensures { result ≡ length (chars part.now) }
{
    part.chars().count()
}

/// `.` and a domain part, again and again.
fn more_domain_parts(text: &str) -> &str
    ensures { Some (chars result.now) ≡ repeated (is 46 then domain_part) (chars text.now) }
{
    let mut rest = text;
    'parts: while let Some(behind) = further_domain_part(rest) {
        rest = behind;
    }
    rest
}

fn further_domain_part(text: &str) -> Option<&str>
    ensures { rest_of result ≡ (is 46 then domain_part) (chars text.now) }
{
    domain_part(is(text, '.')?)
}
