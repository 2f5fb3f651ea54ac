//! Starts of list items (CommonMark 0.31.2, section 5.2).
mod kind;
mod marker;

ghost use Rattle.std.specs.Prelude.{◌≡◌, ◌≤◌, IfSome};
ghost use Rattle.doc_rules.specs.Columns.{Line};
ghost use Rattle.doc_rules.specs.ContainerStarts as rules;
ghost use Rattle.doc_lines.specs.Cursors.{Position, left_of};
ghost use Rattle.doc_blocks_starts.specs.Items.{item_shown, item_taken};
ghost use Rattle.doc_blocks_starts.specs.ItemSteps.{marker_shown, content_columns, IsMarkerOf};

use crate::indentation::is_too_far_in;
use doc_lines::cursor::Cursor;
pub use kind::ListKind;
use marker::{Marker, take_marker};

/// How many columns a marker may have before it.
const MOST_BEFORE: usize = 3;

/// An item: its number, which is 0 for a bullet and 999,999,999 at most, and the columns from the front of the line to its content.
#[derive(Clone, Copy)]
pub struct Item {
    pub kind: ListKind,
    pub start: u32,
    pub columns: usize,
}

impl Item {
    /// Whether the item may interrupt a paragraph, where this is left of its line.
    #[tactic(auto, unfolding(doc_rules::specs::ContainerStarts::item_may_interrupt, doc_rules::specs::ContainerStarts::begins_a_list))]
    pub fn may_interrupt(self, line: &Cursor) -> bool
        ensures { result ≡ rules.item_may_interrupt (item_shown self line.now) }
    {
        !line.is_blank() && self.begins_a_list()
    }

    /// A bullet, or the number 1.
    #[tactic(auto, unfolding(doc_rules::specs::ContainerStarts::begins_a_list))]
    fn begins_a_list(self) -> bool
        ensures { (place : Position) → result ≡ rules.begins_a_list (item_shown self place)
            (item_shown self place).kind }
    {
        match self.kind {
            ListKind::Bullet(_) => true,
            ListKind::Ordered(_) => self.start == 1,
        }
    }
}

/// Takes the marker of the item that a line begins, and the columns before its content. A line such as `* * *` has a marker too: where it
/// is a thematic break, it is no item. Where no item begins, the line is left anywhere.
#[tactic(auto, unfolding(doc_rules::specs::ContainerStarts::item_start))]
pub fn take_item(line: &mut Cursor) -> Option<Item>
    ensures { item_taken result line.new ≡ rules.item_start (left_of line.old) }
{
    if is_too_far_in(line) {
        return None;
    }
    let margin = line.indent_up_to(MOST_BEFORE);
    line.pass_indent();
    let marker = take_marker(line)?;
    take_content(line, margin, marker)
}

/// Takes the columns between a marker and the content of its item. The marker stands behind this margin.
fn take_content(behind: &mut Cursor, margin: usize, marker: Marker) -> Option<Item>
    requires near { margin ≤ 3 }
    requires few { marker.length ≤ 10 }
    ensures { (line : Line) → IsMarkerOf line margin marker behind.old
        → item_taken result behind.new ≡ rules.item_of line (marker_shown marker behind.old) }
{
    let columns = content_columns(behind)?;
    let _ = behind.skip(columns);
    Some(Item {
        kind: marker.kind,
        start: marker.start,
        columns: margin + marker.length + columns,
    })
}

/// The columns behind a marker at which content begins, 1 to 4, or 1 where more columns follow or nothing does.
#[tactic(auto, unfolding(crate::specs::ItemSteps::content_columns))]
fn content_columns(behind: &Cursor) -> Option<usize>
    ensures columns { result ≡ content_columns (left_of behind.now) }
    ensures few { IfSome result (λ columns. columns ≤ 4) }
{
    if behind.is_blank() {
        return Some(1);
    }
    match behind.indent_up_to(5) {
        0 => None,
        5 => Some(1),
        columns => Some(columns),
    }
}
