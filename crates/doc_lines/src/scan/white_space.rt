//! Spaces, tabs and line endings.
ghost use Rattle.std.specs.Prelude.{◌≡◌, Some, chars};
ghost use Rattle.doc_rules.specs.Characters.{is_space_or_tab};
ghost use Rattle.doc_rules.specs.Parsers.{◌then◌, many, maybe, line_ending, spacing, some_spacing};
ghost use Rattle.doc_lines.specs.RestSteps.{rest_of};

use super::character::is;
use super::run::{many, some};
use super::word::word;

/// A space or a tab. Form feeds and other white space are none here.
pub fn is_space_or_tab(c: char) -> bool
    ensures { result ≡ is_space_or_tab c }
{
    c == ' ' || c == '\t'
}

/// CR LF, LF or CR (CommonMark 0.31.2, section 2.1).
pub fn line_ending(text: &str) -> Option<&str>
    ensures { rest_of result ≡ line_ending (chars text.now) }
{
    word(text, b"\r\n")
        .or_else(|| is(text, '\n'))
        .or_else(|| is(text, '\r'))
}

/// Spaces, tabs and at most one line ending, or nothing.
pub fn spacing(text: &str) -> &str
    ensures { Some (chars result.now) ≡ spacing (chars text.now) }
{
    let rest = many(text, is_space_or_tab);
    ending_and_gap(rest)
}

/// The same as [`spacing`], but not nothing.
#[tactic(auto, unfolding(doc_rules::specs::Parsers::some_spacing))]
pub fn some_spacing(text: &str) -> Option<&str>
    ensures { rest_of result ≡ some_spacing (chars text.now) }
{
    if let Some(rest) = some(text, is_space_or_tab) {
        return Some(ending_and_gap(rest));
    }
    let rest = line_ending(text)?;
    Some(many(rest, is_space_or_tab))
}

/// At most one line ending, and the spaces and tabs behind it.
fn ending_and_gap(text: &str) -> &str
    ensures { Some (chars result.now) ≡ (maybe line_ending then many is_space_or_tab)
        (chars text.now) }
{
    many(line_ending(text).unwrap_or(text), is_space_or_tab)
}
