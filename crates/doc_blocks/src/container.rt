//! Open containers: quotes and list items, and whether a line goes on with one (CommonMark 0.31.2, sections 5.1 and 5.2): with a quote by
//! its marker, with an item by its columns or by being blank, but for the second line of an item that started blank.
ghost use Rattle.std.specs.Prelude.{◌≡◌, nat_le, false, ◌&&◌, ◌||◌, not};
ghost use Rattle.doc_rules.specs.Columns.{indent, is_blank_line};
ghost use Rattle.doc_blocks_leaves.specs.Paths.{OpenItem, matched_open, gone_on};
ghost use Rattle.doc_lines.specs.Cursors.{left_of};
ghost use Rattle.doc_blocks_starts.specs.Lines.{inside_of};
ghost use Rattle.doc_blocks_starts.specs.Tags as tags;
ghost use Rattle.doc_blocks.specs.Containers.{container_shown, block_of};

use doc_blocks_starts::indentation::{indent_up_to, is_blank_line};
use doc_blocks_starts::quote::take_quote;
use doc_blocks_starts::tag::ContainerBlock;
use doc_lines::cursor::Cursor;

/// An open quote, or an open item with the columns before its content. An item is empty while it started blank and no line went on
/// with it.
#[derive(Clone, Copy)]
pub(crate) enum Container {
    Quote,
    Item { columns: usize, is_empty: bool },
}

impl Container {
    /// Whether a line goes on with the container (CommonMark 0.31.2, sections 5.1 and 5.2). Where it does, it is inside then.
    #[tactic(auto, unfolding(doc_blocks_leaves::specs::Paths::matched_open))]
    pub(crate) fn matched(self, line: &mut Cursor) -> bool
        ensures inside { inside_of result line.new
            ≡ matched_open (container_shown self) (left_of line.old) }
        ensures stays { result ≡ false → line.new ≡ line.old }
    {
        match self {
            Container::Quote => take_quote(line),
            Container::Item { columns, is_empty } => matched_item(line, columns, is_empty),
        }
    }

    /// The container as a block.
    #[tactic(auto, unfolding(doc_blocks_starts::specs::Tags::container_shown))]
    pub(crate) fn block(self) -> ContainerBlock
        ensures { tags.container_shown result ≡ block_of self }
    {
        match self {
            Container::Quote => ContainerBlock::Quote,
            Container::Item { .. } => ContainerBlock::Item,
        }
    }

    /// The container behind a line that went on with it.
    pub(crate) fn gone_on(self) -> Container
        ensures { container_shown result ≡ gone_on (container_shown self) }
    {
        match self {
            Container::Quote => Container::Quote,
            Container::Item { columns, .. } => Container::Item {
                columns,
                is_empty: false,
            },
        }
    }
}

/// The same for an item.
#[tactic(auto, unfolding(doc_blocks_leaves::specs::Paths::matched_open))]
fn matched_item(line: &mut Cursor, columns: usize, is_empty: bool) -> bool
    ensures inside { inside_of result line.new
        ≡ matched_open (OpenItem columns is_empty) (left_of line.old) }
    ensures stays { result ≡ false → line.new ≡ line.old }
{
    if !goes_on_in(line, columns, is_empty) {
        return false;
    }
    let _ = line.skip(columns);
    true
}

/// Whether a line is indented far enough to go on with an item, or blank, and then not the second line of an item that started blank.
fn goes_on_in(line: &Cursor, columns: usize, is_empty: bool) -> bool
    ensures { result ≡ (nat_le columns (indent (left_of line.now))
        && not (is_blank_line (left_of line.now)))
        || (is_blank_line (left_of line.now) && not is_empty) }
{
    if is_blank_line(line) {
        return !is_empty;
    }
    is_indented_by(line, columns)
}

fn is_indented_by(line: &Cursor, columns: usize) -> bool
    ensures { result ≡ nat_le columns (indent (left_of line.now)) }
{
    indent_up_to(line, columns) >= columns
}
