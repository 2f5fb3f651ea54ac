//! The lines that an open leaf takes before anything else may (CommonMark 0.31.2, sections 4.4 to 4.6).
ghost use Rattle.std.specs.Prelude.{◌≡◌, chars, IfOk};
ghost use Rattle.doc_rules.specs.Characters.{Text};
ghost use Rattle.doc_lines.specs.Cursors.{left_of};
ghost use Rattle.doc_blocks_leaves.specs.Leaves.{OpenCode, OpenFence, OpenHtml, taken};
ghost use Rattle.doc_blocks_starts.specs.Fences.{fence_shown};
ghost use Rattle.doc_blocks_starts.specs.HtmlKinds.{kind_of};
ghost use Rattle.doc_blocks_leaves.specs.OpenLeaves.{taken_shown};
ghost use Rattle.doc_blocks_leaves.specs.declared.leaf.take.LineTaken.TheVariants.{No};

use crate::gathered::Gathered;
use crate::line::{CODE, closes_fence, ends_html, is_indented};
use doc_blocks_starts::fence::Fence;
use doc_blocks_starts::html::HtmlKind;
use doc_blocks_starts::indentation::is_blank_line;
use doc_lines::cursor::Cursor;
use doc_page_parts::failure::Memory;

/// What an open leaf did with a line.
#[derive(Clone, Copy, Debug, PartialEq, Eq)]
pub enum LineTaken {
    /// It takes no such line.
    No,
    /// It took the line, and is open.
    GoesOn {
        /// Whether the line is a blank one that ends no block before it.
        blank: bool,
    },
    /// It is to be closed: the line was its last one, or is the one that ends it.
    Closes {
        /// Whether the line is blank.
        blank: bool,
    },
}

/// Indented code takes lines that are indented as code, and blank ones.
#[tactic(auto, unfolding(crate::specs::Leaves::taken))]
pub fn take_code(lines: &mut Gathered, line: &Cursor) -> Result<LineTaken, Memory>
    ensures taken { IfOk result (λ answer. taken_shown answer
        (OpenCode lines.new.all lines.new.kept)
        ≡ taken (left_of line.now) (OpenCode lines.old.all lines.old.kept)) }
    ensures no { IfOk result (λ answer. answer ≡ No → lines.new ≡ lines.old) }
{
    let blank = is_blank_line(line);
    if !blank && !is_indented(line) {
        return Ok(LineTaken::No);
    }
    lines.add_line(line, CODE)?;
    lines.keep(blank);
    Ok(LineTaken::GoesOn { blank })
}

/// A fence takes all lines up to the one that closes it.
#[tactic(auto, unfolding(crate::specs::Leaves::taken))]
pub fn take_fenced(fence: Fence, lines: &mut Gathered, line: &Cursor) -> Result<LineTaken, Memory>
    ensures taken { IfOk result (λ answer. (info : Text) →
        taken_shown answer (OpenFence (fence_shown fence) info lines.new.all)
        ≡ taken (left_of line.now) (OpenFence (fence_shown fence) info lines.old.all)) }
    ensures no { IfOk result (λ answer. answer ≡ No → lines.new ≡ lines.old) }
{
    if closes_fence(fence, line) {
        return Ok(LineTaken::Closes { blank: false });
    }
    lines.add_line(line, fence.indent)?;
    Ok(LineTaken::GoesOn { blank: false })
}

/// An HTML block takes all lines up to the blank one, or with the one, that ends it.
#[tactic(auto, unfolding(crate::specs::Leaves::taken))]
pub fn take_html(kind: HtmlKind, lines: &mut Gathered, line: &Cursor) -> Result<LineTaken, Memory>
    ensures taken { IfOk result (λ answer.
        taken_shown answer (OpenHtml (kind_of kind) lines.new.all lines.new.kept)
        ≡ taken (left_of line.now) (OpenHtml (kind_of kind) lines.old.all lines.old.kept)) }
    ensures no { IfOk result (λ answer. answer ≡ No → lines.new ≡ lines.old) }
{
    let blank = is_blank_line(line);
    if blank && kind.ends_before_blank() {
        return Ok(LineTaken::Closes { blank });
    }
    lines.add_next(line)?;
    lines.keep(blank);
    if ends_html(kind, line) {
        Ok(LineTaken::Closes { blank })
    } else {
        Ok(LineTaken::GoesOn { blank })
    }
}
