//! Where the texts of a table's column stand.

/// Where the texts of a table's column stand (GitHub Flavored Markdown 0.29, section 4.10).
#[derive(Clone, Copy, Debug, PartialEq, Eq)]
pub enum Alignment {
    /// Where the reader's program puts them.
    Default,
    Left,
    Center,
    Right,
}
