//! The lines of a table (GitHub Flavored Markdown 0.29, section 4.10).

/// The lines of a table, whose cells are still to be read.
#[derive(Clone, Copy)]
pub struct TableLines<'t> {
    pub header: &'t str,
    /// The delimiter row.
    pub delimiters: &'t str,
    /// The lines behind the delimiter row, joined by LF, if there are any.
    pub rows: Option<&'t str>,
}
