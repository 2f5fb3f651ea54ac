//! Tags.

use crate::table_lines::TableLines;

/// A leaf block (CommonMark 0.31.2, section 4; tables and tasks: GitHub Flavored Markdown 0.29, sections 4.10 and
/// 5.3).
#[derive(Clone, Copy)]
pub enum LeafBlock<'t> {
    /// A paragraph, without the definitions at its front.
    Para(&'t str),
    /// A heading of a level from 1 to 6.
    Heading { level: u8, text: &'t str },
    /// Indented code. Each line ends in LF.
    Code(&'t str),
    /// A fenced code block with its info string, whose escapes and references are read. Each line ends in LF.
    Fence { info: &'t str, text: &'t str },
    /// An HTML block, its lines joined by LF.
    Html(&'t str),
    /// A thematic break.
    Break,
    /// A table. Its lines stand beside its text, so that every tag takes little room.
    Table(&'t TableLines<'t>),
    /// The first paragraph of an item that is a task, without the marker.
    Task { done: bool, text: &'t str },
}

/// A container block (CommonMark 0.31.2, section 5), without what stands in it. Items stand in lists.
#[derive(Clone, Copy)]
pub enum ContainerBlock {
    Quote,
    /// A list of items. A list of bullets has no start.
    List { start: Option<u32>, tight: bool },
    Item,
}

/// A leaf block, or where a container block starts or ends. Its texts stand in [`Texts`](crate::texts::Texts).
#[derive(Clone, Copy)]
pub enum Tag<'t> {
    Leaf(LeafBlock<'t>),
    Start(ContainerBlock),
    End(ContainerBlock),
}
