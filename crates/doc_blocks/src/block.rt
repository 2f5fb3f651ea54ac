//! The blocks of a document.

use doc_page_parts::heap::Vec;
use doc_page_parts::text::Text;

/// A block (CommonMark 0.31.2, sections 4 and 5; tables and tasks: GitHub Flavored Markdown 0.29, sections 4.10 and 5.3). Items stand in
/// lists.
#[derive(Debug, Drop)]
pub enum Block {
    /// A paragraph, without the definitions at its front.
    Para(Text),
    /// A heading of a level from 1 to 6.
    Heading {
        level: u8,
        text: Text,
    },
    /// Indented code. Each line ends in LF.
    Code(Text),
    /// A fenced code block with its info string, whose escapes and references are read. Each line ends in LF.
    Fence {
        info: Text,
        text: Text,
    },
    /// An HTML block, its lines joined by LF.
    Html(Text),
    /// A thematic break.
    Break,
    /// A table: its header, its delimiter row, and the lines behind them, joined by LF, if there are any. Their cells are still to be read.
    Table {
        header: Text,
        delimiters: Text,
        rows: Option<Text>,
    },
    /// The first paragraph of an item that is a task, without the marker.
    Task {
        done: bool,
        text: Text,
    },
    Quote(Vec<Block>),
    /// A list of items. A list of bullets has no start.
    List {
        start: Option<u32>,
        tight: bool,
        items: Vec<Block>,
    },
    Item(Vec<Block>),
}
