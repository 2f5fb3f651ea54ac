//! Kinds of open leaves.

use doc_blocks_starts::fence::Fence;
use doc_blocks_starts::html::HtmlKind;
use doc_page_parts::text::Text;

/// What the open leaf is, if there is one.
#[derive(Drop)]
pub enum Kind {
    Nothing,
    /// Whether a table is in its text, where that was asked of each of its lines.
    Paragraph { table: Option<bool> },
    /// Indented code.
    Code,
    /// A fence with its info string, whose escapes and references are read.
    Fenced { fence: Fence, info: Text },
    Html(HtmlKind),
}
