//! What the rules of leaves ask of a line.
ghost use Rattle.std.specs.Prelude.{◌≡◌, nat_le};
ghost use Rattle.doc_rules.specs.Columns.{indent, text_of};
ghost use Rattle.doc_rules.specs.LeafStarts.{closes_fence};
ghost use Rattle.doc_rules.specs.HtmlStarts.{ends_html};
ghost use Rattle.doc_lines.specs.Cursors.{left_of};
ghost use Rattle.doc_blocks_starts.specs.Fences.{fence_shown};
ghost use Rattle.doc_blocks_starts.specs.HtmlKinds.{kind_of};

use doc_blocks_starts::fence::Fence;
use doc_blocks_starts::html::HtmlKind;
use doc_blocks_starts::indentation::{indent_up_to, marker_text};
use doc_lines::cursor::Cursor;

/// The columns by which indented code is indented (CommonMark 0.31.2, section 4.4).
pub const CODE: usize = 4;

/// Whether the line is indented as indented code is (CommonMark 0.31.2, section 4.4). A blank line can be, too.
pub fn is_indented(line: &Cursor) -> bool
    ensures { result ≡ nat_le 4 (indent (left_of line.now)) }
{
    indent_up_to(line, CODE) >= CODE
}

/// Whether the line closes a fence (CommonMark 0.31.2, section 4.5).
#[tactic(auto, unfolding(doc_rules::specs::LeafStarts::closes_fence))]
pub(crate) fn closes_fence(fence: Fence, line: &Cursor) -> bool
    ensures { result ≡ closes_fence (fence_shown fence) (left_of line.now) }
{
    match marker_text(line) {
        Some(text) => fence.is_closed_by(text),
        None => false,
    }
}

/// Whether an HTML block of this kind ends with the line (CommonMark 0.31.2, section 4.6). What ends one holds no white space, so a tab
/// that is used in part counts for nothing.
pub(crate) fn ends_html(kind: HtmlKind, line: &Cursor) -> bool
    ensures { result ≡ ends_html (kind_of kind) (text_of (left_of line.now)) }
{
    if line.is_in_tab() {
        let mut behind = line.copy();
        let _ = behind.next();
        return kind.ends_with(behind.rest());
    }
    kind.ends_with(line.rest())
}
