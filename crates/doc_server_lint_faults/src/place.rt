//! Where in a configuration something is told of.

/// A place in a configuration. The order of places is that in which they are told. Rows are counted from 1.
#[derive(Clone, Copy, PartialEq, Eq, PartialOrd, Ord)]
pub enum Place {
    /// The document: its own keys, and what is told of it as a whole.
    Document,
    /// The table `markdown`.
    Markdown,
    /// The table `listen`.
    Listen,
    /// The table `browse`.
    Browse,
    /// The table `reader` of this number.
    Reader(usize),
    /// The table `page` of this number.
    Page(usize),
    /// The table `folder` of this number.
    Folder(usize),
}
