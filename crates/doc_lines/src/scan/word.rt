//! Words of ASCII characters.
ghost use Rattle.std.specs.Prelude.{◌≡◌, ◌==◌, chars};
ghost use Rattle.std.specs.Char.{to_ascii_lowercase};
ghost use Rattle.doc_rules.specs.Parsers.{Parser, one, word, word_in_any_case, through};
ghost use Rattle.doc_lines.specs.RestSteps.{rest_of, IsScannerOf};

use super::character::{is, next_char, one};

/// This word.
#[tactic(auto, unfolding(doc_rules::specs::Parsers::word))]
pub fn word<'a>(text: &'a str, letters: &[u8]) -> Option<&'a str>
    ensures { rest_of result ≡ word letters.now (chars text.now) }
{
    let mut rest = text;
    for letter in letters {
        rest = is(rest, *letter as char)?;
    }
    Some(rest)
}

/// This word of lower case letters, in any case.
#[tactic(auto, unfolding(doc_rules::specs::Parsers::word_in_any_case))]
pub fn word_in_any_case<'a>(text: &'a str, letters: &[u8]) -> Option<&'a str>
    ensures { rest_of result ≡ word_in_any_case letters.now (chars text.now) }
{
    let mut rest = text;
    for letter in letters {
        rest = is_in_any_case(rest, *letter as char)?;
    }
    Some(rest)
}

/// All up to and with the first place where this word stands.
pub fn through<'a>(text: &'a str, end: &[u8]) -> Option<&'a str>
    ensures { rest_of result ≡ through (word end.now) (chars text.now) }
{
    through_first(text, |rest| word(rest, end))
}

/// All up to and with the first place where this word of lower case letters stands, in any case.
pub fn through_in_any_case<'a>(text: &'a str, end: &[u8]) -> Option<&'a str>
    ensures { rest_of result ≡ through (word_in_any_case end.now) (chars text.now) }
{
    through_first(text, |rest| word_in_any_case(rest, end))
}

/// All up to and with what this scanner takes at the first place where it takes something.
fn through_first<'a, F: Fn(&'a str) -> Option<&'a str>>(
    text: &'a str,
    scanner: F,
) -> Option<&'a str>
    requires { F.IsAlwaysCallable scanner }
    ensures { (parser : Parser) → IsScannerOf (F.post scanner) parser
        → rest_of result ≡ through parser (chars text.now) }
{
    let mut rest = text;
    'places: loop {
        if let Some(after) = scanner(rest) {
            return Some(after);
        }
        let (_, behind) = next_char(rest)?;
        rest = behind;
    }
}

/// A character whose lower case is this one.
fn is_in_any_case(text: &str, letter: char) -> Option<&str>
    ensures { rest_of result ≡ one (λ c. letter == to_ascii_lowercase c) (chars text.now) }
{
    one(text, |c| letter == c.to_ascii_lowercase())
}
