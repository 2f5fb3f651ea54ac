//! Hosts of addresses, and what stands before them.
ghost use Rattle.std.specs.Prelude.{◌≡◌, ℕ, suc, ◌||◌, reverse, chars, codes};
ghost use Rattle.doc_rules.specs.Characters.{one_of, first_or, strip_end};
ghost use Rattle.doc_rules.specs.BareLinks as rules;
ghost use Rattle.doc_lines.specs.RestSteps.{rest_of};

use doc_lines::characters::is_white;
use doc_lines::scan::character::{last_char, next_char};
use doc_lines::scan::front::front;
use doc_lines::scan::run::at_most;
use doc_lines::scan::word::{word, word_in_any_case};

/// Whether `www.` begins a host that goes on behind it.
pub(crate) fn is_www(text: &str) -> bool
    ensures { result ≡ rules.is_www (chars text.now) }
{
    let Some(rest) = word(text, b"www.") else {
        return false;
    };
    let Some((c, _)) = next_char(rest) else {
        return false;
    };
    is_host_char(c) && (c != '.' && holds_host(text))
}

/// Whether a host stands behind a scheme.
pub(crate) fn is_web(text: &str) -> bool
    ensures { result ≡ rules.is_web (chars text.now) }
{
    let Some(rest) = web_scheme(text) else {
        return false;
    };
    let Some((c, _)) = next_char(rest) else {
        return false;
    };
    is_host_char(c) && (!is_no_first(c) && holds_host(rest))
}

/// `www.` may stand behind this character.
pub(crate) fn is_www_place(last: char) -> bool
    ensures { result ≡ rules.is_www_place last }
{
    is_white(last) || matches!(last, '*' | '_' | '~' | '(')
}

/// What stands before the host of an address with a scheme.
#[tactic(auto, unfolding(doc_rules::specs::BareLinks::web_scheme))]
fn web_scheme(text: &str) -> Option<&str>
    ensures { rest_of result ≡ rules.web_scheme (chars text.now) }
{
    if let Some(rest) = word_in_any_case(text, b"http://") {
        return Some(rest);
    }
    if let Some(rest) = word_in_any_case(text, b"https://") {
        return Some(rest);
    }
    word_in_any_case(text, b"ftp://")
}

/// No host behind a scheme begins with this character.
fn is_no_first(c: char) -> bool
    ensures { result ≡ one_of (codes ".-_") c }
{
    matches!(c, '.' | '-' | '_')
}

/// A letter, a digit, `.`, `-`, `_`, or a character past ASCII that is no white space.
#[tactic(auto, unfolding(doc_rules::specs::BareLinks::is_host_char))]
fn is_host_char(c: char) -> bool
    ensures { result ≡ rules.is_host_char c }
{
    c.is_ascii_alphanumeric() || (matches!(c, '.' | '-' | '_') || (c >= '\u{80}' && !is_white(c)))
}

/// Whether the longest run of such characters is a host, and not too long. Only so many of them are looked at.
fn holds_host(text: &str) -> bool
    ensures { result ≡ rules.holds_host (rules.host_run (chars text.now)) }
{
    let rest = at_most(text, 253, is_host_char);
    if goes_on(rest) {
        return false;
    }
    is_host(without_marks(front(text, rest)))
}

/// Whether a text begins with such a character.
fn goes_on(text: &str) -> bool
    ensures { result ≡ rules.is_host_char (first_or 32 (chars text.now)) }
{
    let Some((c, _)) = next_char(text) else {
        return false;
    };
    is_host_char(c)
}

/// Whether a run is a host: it isn't empty, and no `_` stands in the last two of its parts.
fn is_host(host: &str) -> bool
    ensures { result ≡ rules.is_host (chars host.now) }
{
    let Some(_) = last_char(host) else {
        return false;
    };
    !has_low_line(host)
}

/// Whether a `_` stands in the last two of the parts between `.`.
fn has_low_line(host: &str) -> bool
    ensures { result ≡ one_of (rules.dotted 2 (reverse (chars host.now))) 95 }
{
    let (found, before) = last_part(host);
    if found {
        return true;
    }
    let (found_before, _) = last_part(before);
    found_before
}

/// Whether a `_` stands in the last part of a text, and else the text before the `.` in front of that part.
fn last_part(text: &str) -> (bool, &str)
    ensures { (n : ℕ) → one_of (rules.dotted (suc n) (reverse (chars text.now))) 95
        ≡ (result.0 || one_of (rules.dotted n (reverse (chars result.1.now))) 95) }
{
    let mut rest = text;
    'part: while let Some((before, c)) = last_char(rest) {
        if c == '_' {
            return (true, before);
        }
        if c == '.' {
            return (false, before);
        }
        rest = before;
    }
    (false, rest)
}

/// A run without `.` and `_` at its end.
fn without_marks(run: &str) -> &str
    ensures { chars result.now ≡ strip_end (one_of (codes "._")) (chars run.now) }
{
    let mut rest = run;
    'marks: while let Some((before, c)) = last_char(rest) {
        if !is_mark(c) {
            return rest;
        }
        rest = before;
    }
    rest
}

fn is_mark(c: char) -> bool
    ensures { result ≡ one_of (codes "._") c }
{
    matches!(c, '.' | '_')
}
