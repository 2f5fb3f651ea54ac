//! Which texts can be titles of a site, and languages.

ghost use Rattle.std.specs.Prelude.{◌≡◌, ◌&&◌, length, nat_le, not};
ghost use Rattle.std.specs.Char.{is_ascii_alphabetic, is_ascii_alphanumeric};
ghost use Rattle.std.specs.List.{list_all};
ghost use Rattle.std.specs.Str.{chars};
ghost use Rattle.doc_page_parts.specs.Lines.{begins_with};
ghost use Rattle.doc_page_parts.specs.Paths.{is_control};
ghost use Rattle.doc_people.specs.Settings.{begins_with_letters, ends_with, has_length, is_language, is_subtag, is_title, subtags};

/// How many bytes a title has at most.
const TITLE_LIMIT: usize = 100;

/// How many bytes a language has at most.
const LANGUAGE_LIMIT: usize = 35;

/// How many bytes each part of a language has at most.
const SUBTAG_LIMIT: usize = 8;

/// Whether a text can be the title of a site: 1 to 100 bytes, without control characters, and neither first nor last a space.
#[tactic(auto, unfolding(doc_people::specs::Settings::is_title))]
pub fn is_title(text: &str) -> bool
    ensures { result ≡ is_title text.now }
{
    has_length(text, TITLE_LIMIT)
        && has_no_controls(text)
        && !begins_with_space(text)
        && !ends_with_space(text)
}

/// Whether a text has the form of a language: 1 to 35 bytes, parts joined by `-`, each of 1 to 8 ASCII letters or digits, the first of
/// letters alone and of 2 at least (BCP 47, section 2.1).
#[tactic(auto, unfolding(doc_people::specs::Settings::is_language))]
pub fn is_language(text: &str) -> bool
    ensures { result ≡ is_language text.now }
{
    has_length(text, LANGUAGE_LIMIT) && has_good_parts(text) && begins_with_letters(text)
}

/// Whether a text has at least one byte, and at most so many.
fn has_length(text: &str, most: usize) -> bool
    ensures { result ≡ has_length 1 most text.now }
{
    !text.is_empty() && text.len() <= most
}

/// Whether no character of a text is a control character.
pub(crate) fn has_no_controls(text: &str) -> bool
    ensures { result ≡ list_all (λ c. not (is_control c)) (chars text.now) }
{
    text.chars().all(|c| !is_control(c))
}

/// Whether a character is a control character.
pub(crate) fn is_control(c: char) -> bool
    ensures { result ≡ is_control c }
{
    c < ' ' || ('\u{7f}'..='\u{9f}').contains(&c)
}

fn begins_with_space(text: &str) -> bool
    ensures { result ≡ begins_with 32 text.now }
{
    match text.as_bytes() {
        [first, ..] => *first == b' ',
        [] => false,
    }
}

fn ends_with_space(text: &str) -> bool
    ensures { result ≡ ends_with 32 text.now }
{
    match text.as_bytes() {
        [.., last] => *last == b' ',
        [] => false,
    }
}

fn has_good_parts(text: &str) -> bool
    ensures { result ≡ list_all is_subtag (subtags text.now) }
{
    text.split('-').all(is_subtag)
}

fn is_subtag(part: &str) -> bool
    ensures { result ≡ is_subtag part.now }
{
    has_length(part, SUBTAG_LIMIT) && are_alphanumeric(part.as_bytes())
}

fn are_alphanumeric(part: &[u8]) -> bool
    ensures { result ≡ list_all is_ascii_alphanumeric part.now }
{
    part.iter().all(|b| b.is_ascii_alphanumeric())
}

fn begins_with_letters(text: &str) -> bool
    ensures { result ≡ begins_with_letters (subtags text.now) }
{
    match text.split_once('-') {
        Some((first, _)) => are_letters(first),
        None => are_letters(text),
    }
}

/// Whether a part is of letters alone, and of two at least.
fn are_letters(part: &str) -> bool
    ensures { result ≡ (list_all is_ascii_alphabetic part.now && nat_le 2 (length part.now)) }
{
    are_alphabetic(part.as_bytes()) && part.len() >= 2
}

fn are_alphabetic(part: &[u8]) -> bool
    ensures { result ≡ list_all is_ascii_alphabetic part.now }
{
    part.iter().all(|b| b.is_ascii_alphabetic())
}
