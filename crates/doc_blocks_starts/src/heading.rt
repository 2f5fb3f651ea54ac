//! Headings (CommonMark 0.31.2, sections 4.2 and 4.3).
ghost use Rattle.std.specs.Prelude.{◌≡◌, ◌==◌, chars};
ghost use Rattle.std.specs.List.{list_all};
ghost use Rattle.doc_rules.specs.Characters.{is_space_or_tab, last_or};
ghost use Rattle.doc_rules.specs.LeafStarts.{without_closing, heading_text, atx_heading, is_all_of, underline_level};
ghost use Rattle.doc_blocks_starts.specs.Headings.{heading_of};

use crate::end::is_end;
use crate::run::run_of;
use crate::strip::{strip_end, strip_spaces};
use doc_lines::scan::character::last_char;
use doc_lines::scan::white_space::is_space_or_tab;

/// The deepest level of an ATX heading.
const DEEPEST: usize = 6;

/// The level of a heading, 1 to 6, and its text as it stands.
#[derive(Clone, Copy)]
pub struct Heading<'a> {
    pub level: u8,
    pub text: &'a str,
}

/// The ATX heading that a line is (CommonMark 0.31.2, section 4.2), by what stands behind its indentation: 1 to 6 `#`, and behind
/// them a space, a tab or the end. The text is without spaces and tabs at its ends and without a closing run of `#`.
#[tactic(auto, unfolding(doc_rules::specs::LeafStarts::atx_heading))]
pub fn atx_heading(text: &str) -> Option<Heading>
    ensures { heading_of result ≡ atx_heading (chars text.now) }
{
    let (level, rest) = run_of(text, '#')?;
    if level > DEEPEST || !is_end(rest) {
        return None;
    }
    Some(Heading {
        level: level as u8,
        text: heading_text(rest),
    })
}

/// What stands behind the opening `#`, without a closing run and stripped.
#[tactic(auto, unfolding(doc_rules::specs::LeafStarts::heading_text))]
fn heading_text(text: &str) -> &str
    ensures { chars result.now ≡ heading_text (chars text.now) }
{
    strip_spaces(without_closing(strip_end(text, is_space_or_tab)))
}

/// The text without a closing run of `#`, which stands at the front or behind a space or a tab.
#[tactic(auto, unfolding(doc_rules::specs::LeafStarts::without_closing))]
fn without_closing(text: &str) -> &str
    ensures { chars result.now ≡ without_closing (chars text.now) }
{
    let front = strip_end(text, |c| c == '#');
    if ends_in_space(front) { front } else { text }
}

/// Whether the text is empty or its last character is a space or a tab.
fn ends_in_space(text: &str) -> bool
    ensures { result ≡ is_space_or_tab (last_or 32 (chars text.now)) }
{
    match last_char(text) {
        Some((_, c)) => is_space_or_tab(c),
        None => true,
    }
}

/// The level of the heading that a line underlines (CommonMark 0.31.2, section 4.3), by what stands behind its indentation: 1 for
/// `=`, 2 for `-`. Whether a paragraph stands above it is for the caller to know.
#[tactic(auto, unfolding(doc_rules::specs::LeafStarts::underline_level))]
pub fn underline_level(text: &str) -> Option<u8>
    ensures { result ≡ underline_level (chars text.now) }
{
    let line = strip_end(text, is_space_or_tab);
    if is_all_of(line, '=') {
        return Some(1);
    }
    if is_all_of(line, '-') { Some(2) } else { None }
}

/// This character once or more, and nothing else.
#[tactic(auto, unfolding(doc_rules::specs::LeafStarts::is_all_of))]
fn is_all_of(text: &str, c: char) -> bool
    ensures { result ≡ is_all_of c (chars text.now) }
{
    !text.is_empty() && has_only(text, c)
}

fn has_only(text: &str, c: char) -> bool
    ensures { result ≡ list_all (λ d. d == c) (chars text.now) }
{
    text.chars().all(|d| d == c)
}
