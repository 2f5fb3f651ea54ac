//! Runs of characters that may be escaped.
ghost use Rattle.std.specs.Prelude.{◌≡◌, ◌<◌, ◌∷◌, ℕ, Bool, Some, IfSome, length, chars};
ghost use Rattle.doc_rules.specs.Parsers.{one, ◌or◌};
ghost use Rattle.doc_rules.specs.Destinations.{escaped, many_or_escaped};
ghost use Rattle.doc_rules.specs.Rests.{IsRest};
ghost use Rattle.doc_lines.specs.RestSteps.{rest_of, IsTestOf};

use doc_lines::scan::character::{is, next_char, one};

/// A backslash and ASCII punctuation (CommonMark 0.31.2, section 2.4).
pub fn escaped(text: &str) -> Option<&str>
    ensures { rest_of result ≡ escaped (chars text.now) }
{
    one(is(text, '\\')?, |c| c.is_ascii_punctuation())
}

/// The longest run of characters that pass the test and of escaped ones, which may be empty.
#[tactic(auto, unfolding(doc_rules::specs::Destinations::many_or_escaped))]
pub fn many_or_escaped<F: Fn(char) -> bool>(text: &str, test: F) -> &str
    requires { F.IsAlwaysCallable test }
    ensures value { (class : ℕ → Bool) → IsTestOf (F.post test) class
        → Some (chars result.now) ≡ many_or_escaped class (chars text.now) }
    ensures end { IsRest (chars result.now) (chars text.now) }
{
    let mut rest = text;
    'characters: while let Some(behind) = escaped_or_one(rest, &test) {
        rest = behind;
    }
    rest
}

/// An escaped character, or one that passes the test.
pub fn escaped_or_one<F: Fn(char) -> bool>(text: &str, test: F) -> Option<&str>
    requires { F.IsAlwaysCallable test }
    ensures value { (class : ℕ → Bool) → IsTestOf (F.post test) class
        → rest_of result ≡ (escaped or one class) (chars text.now) }
    ensures end { IfSome result (λ rest. IsRest (chars rest.now) (chars text.now)) }
    ensures shorter { IfSome result (λ rest. length (chars rest.now) < length (chars text.now)) }
{
    let (c, rest) = next_char(text)?;
    if let Some(behind) = behind_escaped(c, rest) {
        return Some(behind);
    }
    if test(c) { Some(rest) } else { None }
}

/// The text behind an escaped character, where its backslash is this character.
fn behind_escaped(c: char, rest: &str) -> Option<&str>
    ensures { rest_of result ≡ escaped (c ∷ chars rest.now) }
{
    if c != '\\' {
        return None;
    }
    one(rest, |d| d.is_ascii_punctuation())
}
