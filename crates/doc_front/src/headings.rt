//! The heading of the text behind front matter (CommonMark 0.31.2, sections 4.2 and 4.3).
ghost use Rattle.std.specs.Prelude.{◌≡◌, ◌||◌, chars};
ghost use Rattle.doc_rules.specs.Columns.{cells_of};
ghost use Rattle.doc_rules.specs.LeafStarts.{marker_text};
ghost use Rattle.doc_rules.specs.Lines.{lines_of};
ghost use Rattle.doc_lines.specs.RestSteps.{rest_of};
ghost use Rattle.doc_front.specs.Front.{has_heading, is_first_heading, is_underline, is_underlined};

use crate::fences::is_blank;
use crate::lines::first_line;
use doc_blocks_starts::heading::{atx_heading, underline_level};
use doc_blocks_starts::indentation;
use doc_lines::cursor::Cursor;

/// Whether a text begins, behind blank lines, with an ATX heading of level 1 or with a line that has an underline of `=`.
pub(crate) fn has_heading(text: &str) -> bool
    ensures { result ≡ has_heading (lines_of (chars text.now)) }
{
    let mut rest = text;
    'lines: while let Some((line, behind)) = first_line(rest) {
        if !is_blank(line) {
            return begins_with_heading(line, behind);
        }
        rest = behind;
    }
    false
}

/// Whether a line is such a heading or has such an underline behind it.
fn begins_with_heading(line: &str, behind: &str) -> bool
    ensures { result ≡ (is_first_heading (chars line.now)
        || is_underlined (lines_of (chars behind.now))) }
{
    is_first_heading(line) || is_underlined(behind)
}

#[tactic(auto, unfolding(crate::specs::Front::is_first_heading))]
fn is_first_heading(line: &str) -> bool
    ensures { result ≡ is_first_heading (chars line.now) }
{
    let Some(text) = marker_text(line) else {
        return false;
    };
    match atx_heading(text) {
        Some(heading) => heading.level == 1,
        None => false,
    }
}

/// Whether the first line is an underline of `=`.
fn is_underlined(text: &str) -> bool
    ensures { result ≡ is_underlined (lines_of (chars text.now)) }
{
    match first_line(text) {
        Some((line, _)) => is_underline(line),
        None => false,
    }
}

#[tactic(auto, unfolding(crate::specs::Front::is_underline))]
fn is_underline(line: &str) -> bool
    ensures { result ≡ is_underline (chars line.now) }
{
    let Some(text) = marker_text(line) else {
        return false;
    };
    match underline_level(text) {
        Some(level) => level == 1,
        None => false,
    }
}

/// The text of a line behind its indentation, where that is at most 3 columns.
fn marker_text(line: &str) -> Option<&str>
    ensures { rest_of result ≡ marker_text (cells_of (chars line.now)) }
{
    indentation::marker_text(&Cursor::new(line))
}
