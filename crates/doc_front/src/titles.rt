//! The title of front matter.
ghost use Rattle.std.specs.Prelude.{◌≡◌, chars};
ghost use Rattle.doc_rules.specs.Lines.{lines_of};
ghost use Rattle.doc_lines.specs.RestSteps.{rest_of};
ghost use Rattle.doc_front.specs.Front.{title_in, title_on};

use crate::fences::is_fence;
use crate::lines::first_line;
use doc_blocks_starts::strip::strip_spaces;
use doc_lines::scan::character::one;
use doc_lines::scan::white_space::is_space_or_tab;
use doc_lines::scan::word::word;

/// What stands behind `title:` on the first line that has it, before the line that front matter ends with. It is stripped, and may be no
/// value.
pub(crate) fn title_in(inside: &str) -> Option<&str>
    ensures { rest_of result ≡ title_in (lines_of (chars inside.now)) }
{
    let mut rest = inside;
    'lines: while let Some((line, behind)) = first_line(rest) {
        if is_fence(line) {
            return None;
        }
        if let Some(title) = title_on(line) {
            return Some(title);
        }
        rest = behind;
    }
    None
}

/// What stands on a line behind `title:` and a space or a tab.
#[tactic(auto, unfolding(crate::specs::Front::title_on))]
fn title_on(line: &str) -> Option<&str>
    ensures { rest_of result ≡ title_on (chars line.now) }
{
    let rest = one(word(line, b"title:")?, is_space_or_tab)?;
    Some(strip_spaces(rest))
}
