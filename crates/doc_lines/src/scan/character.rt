//! One character.
ghost use Rattle.std.specs.Prelude.{◌≡◌, [], ◌∷◌, ◌++◌, ℕ, Bool, chars, IfSome, MatchOption};
ghost use Rattle.std.specs.Char.{encode_utf8};
ghost use Rattle.doc_rules.specs.Rests.{IsRest};
ghost use Rattle.doc_rules.specs.Parsers.{one, is};
ghost use Rattle.doc_lines.specs.RestSteps.{rest_of, IsTestOf};

/// The first character, and the text behind it.
#[tactic(auto, using(std::proofs::lemmas::Str::chars_past_char))]
pub fn next_char(text: &str) -> Option<(char, &str)>
    ensures characters { MatchOption result (chars text.now ≡ [])
        (λ r. chars text.now ≡ r.0 ∷ chars r.1.now) }
    ensures bytes { IfSome result (λ r. text.now ≡ encode_utf8 r.0 ++ r.1.now) }
{
    let mut rest = text.chars();
    let c = rest.next()?;
    Some((c, rest.as_str()))
}

/// The text before the last character, and that character.
#[tactic(auto, using(crate::proofs::Ends::chars_before_last, crate::proofs::Ends::empty_chars))]
pub fn last_char(text: &str) -> Option<(&str, char)>
    ensures { MatchOption result (chars text.now ≡ [])
        (λ r. chars text.now ≡ chars r.0.now ++ (r.1 ∷ [])) }
{
    let mut front = text.chars();
    let c = front.next_back()?;
    Some((front.as_str(), c))
}

/// One character that passes the test.
#[tactic(auto, using(crate::proofs::Steps::one_behind))]
pub fn one<F: Fn(char) -> bool>(text: &str, test: F) -> Option<&str>
    requires { F.IsAlwaysCallable test }
    ensures value { (class : ℕ → Bool) → IsTestOf (F.post test) class
        → rest_of result ≡ one class (chars text.now) }
    ensures end { IfSome result (λ rest. IsRest (chars rest.now) (chars text.now)) }
{
    let (c, rest) = next_char(text)?;
    if test(c) { Some(rest) } else { None }
}

/// This character.
pub fn is(text: &str, c: char) -> Option<&str>
    ensures { rest_of result ≡ is c (chars text.now) }
{
    one(text, |d| d == c)
}
