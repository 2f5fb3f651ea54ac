//! Runs of characters.
ghost use Rattle.std.specs.Prelude.{◌≡◌, ℕ, Bool, Some, IfSome, chars};
ghost use Rattle.doc_rules.specs.Rests.{IsRest};
ghost use Rattle.doc_rules.specs.Parsers.{one, many, some, at_most};
ghost use Rattle.doc_lines.specs.RestSteps.{rest_of, IsTestOf};

use super::character::{next_char, one};

/// The longest run of characters that pass the test, which may be empty.
#[tactic(auto, unfolding(doc_rules::specs::Parsers::many))]
pub fn many<F: Fn(char) -> bool>(text: &str, test: F) -> &str
    requires { F.IsAlwaysCallable test }
    ensures value { (class : ℕ → Bool) → IsTestOf (F.post test) class
        → Some (chars result.now) ≡ many class (chars text.now) }
    ensures end { IsRest (chars result.now) (chars text.now) }
{
    let mut rest = text;
    while let Some((c, behind)) = next_char(rest) {
        if !test(c) {
            return rest;
        }
        rest = behind;
    }
    rest
}

/// The longest run of characters that pass the test, one at least.
pub fn some<F: Fn(char) -> bool>(text: &str, test: F) -> Option<&str>
    requires { F.IsAlwaysCallable test }
    ensures value { (class : ℕ → Bool) → IsTestOf (F.post test) class
        → rest_of result ≡ some class (chars text.now) }
    ensures end { IfSome result (λ rest. IsRest (chars rest.now) (chars text.now)) }
{
    let rest = one(text, &test)?;
    Some(many(rest, &test))
}

/// The longest run of characters that pass the test, `most` at most.
#[tactic(auto, unfolding(doc_rules::specs::Parsers::at_most))]
pub fn at_most<F: Fn(char) -> bool>(text: &str, most: usize, test: F) -> &str
    requires { F.IsAlwaysCallable test }
    ensures value { (class : ℕ → Bool) → IsTestOf (F.post test) class
        → Some (chars result.now) ≡ at_most most (one class) (chars text.now) }
    ensures end { IsRest (chars result.now) (chars text.now) }
{
    let mut rest = text;
    let mut left = most;
    while left > 0 {
        let Some(behind) = one(rest, &test) else {
            return rest;
        };
        rest = behind;
        left -= 1;
    }
    rest
}
