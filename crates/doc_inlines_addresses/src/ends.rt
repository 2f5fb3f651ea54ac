//! Where an address ends: punctuation goes from its end, and so does a `)` to which no `(` in it belongs.
ghost use Rattle.std.specs.Prelude.{◌≡◌, nat_lt, reverse, chars, codes, MatchOption};
ghost use Rattle.doc_rules.specs.Characters.{one_of};
ghost use Rattle.doc_rules.specs.BareLinks as rules;
ghost use Rattle.doc_inlines_addresses.specs.Fronts.{StandsInFront};
ghost use Rattle.doc_inlines_addresses.specs.EndSteps.{is_inside, IsEnd, Goes, IsBeforeReference, IsBeforeLetters};

use doc_lines::characters::is_white;
use doc_lines::scan::character::last_char;
use doc_lines::scan::front::front;
use doc_lines::scan::run::many;

/// The address at the front of a text: all up to white space or a `<`, without what goes from its end.
pub(crate) fn address_of(text: &str) -> &str
    ensures value { chars result.now ≡ rules.address_of (chars text.now) }
    ensures front { StandsInFront (chars result.now) (chars text.now) }
{
    let rest = many(text, is_inside);
    without_end(front(text, rest))
}

fn is_inside(c: char) -> bool
    ensures { result ≡ is_inside c }
{
    !(is_white(c) || c == '<')
}

/// An address without what goes from its end. The parentheses are counted once.
fn without_end(run: &str) -> &str
    ensures value { reverse (chars result.now) ≡ rules.without_end 0 (reverse (chars run.now)) }
    ensures front { StandsInFront (chars result.now) (chars run.now) }
{
    let opening = count(run, '(');
    let mut closing = count(run, ')');
    let mut rest = run;
    'ends: while let Some((before, taken)) = before_end(rest, opening < closing) {
        closing -= taken;
        rest = before;
    }
    rest
}

/// How often a character stands in a text.
fn count(text: &str, c: char) -> usize
    ensures { result ≡ rules.count_of c (chars text.now) }
{
    text.chars().filter(|d| *d == c).count()
}

/// The text before what goes from its end, and how many `)` that takes; `surplus` holds where more of them than of `(` stand in it.
fn before_end(text: &str, surplus: bool) -> Option<(&str, usize)>
    requires { surplus ≡ nat_lt (rules.count_of 40 (chars text.now)) (rules.count_of 41 (chars text.now)) }
    ensures { MatchOption result (IsEnd (chars text.now))
        (λ found. Goes (chars text.now) (chars found.0.now) found.1) }
{
    let (before, c) = last_char(text)?;
    if is_mark(c) {
        return Some((before, 0));
    }
    if c == ';' {
        return Some((before_reference(before), 0));
    }
    if c == ')' && surplus {
        return Some((before, 1));
    }
    None
}

fn is_mark(c: char) -> bool
    ensures { result ≡ one_of (codes "?!.,:*_~'\"") c }
{
    matches!(
        c,
        '?' | '!' | '.' | ',' | ':' | '*' | '_' | '~' | '\'' | '"'
    )
}

/// The text before a `&` and letters at its end, or all of it.
fn before_reference(text: &str) -> &str
    ensures { IsBeforeReference (chars text.now) (chars result.now) }
{
    let Some((_, last)) = last_char(text) else {
        return text;
    };
    if !last.is_ascii_alphabetic() {
        return text;
    }
    let letters = before_letters(text);
    let Some((before, c)) = last_char(letters) else {
        return text;
    };
    if c == '&' { before } else { text }
}

/// The text before the letters at its end.
fn before_letters(text: &str) -> &str
    ensures { IsBeforeLetters (chars text.now) (chars result.now) }
{
    let mut rest = text;
    'letters: while let Some((before, c)) = last_char(rest) {
        if !c.is_ascii_alphabetic() {
            return rest;
        }
        rest = before;
    }
    rest
}
