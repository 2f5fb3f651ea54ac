//! Which extensions of GitHub Flavored Markdown are read, and what pages tell.

/// Which extensions of GitHub Flavored Markdown 0.29 are read, and whether images are told. By default neither: a text is then read as
/// CommonMark 0.31.2 has it.
#[derive(Clone, Copy, Debug, Default, PartialEq, Eq)]
pub struct Options {
    /// Tables (section 4.10).
    pub tables: bool,
    /// Strikethrough, `~~a~~` or `~a~` (section 6.5).
    pub strikethrough: bool,
    /// Task list items, `- [x] a` (section 5.3).
    pub tasks: bool,
    /// Addresses that are links without `<` and `>` (section 6.9), but for those of mail.
    pub bare_links: bool,
    /// Whether a page tells its images. What is written is the same.
    pub images: bool,
}
