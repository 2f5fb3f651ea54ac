//! What may stand behind a `<`.

/// An autolink (CommonMark 0.31.2, section 6.5), or raw HTML (6.6).
#[derive(Clone, Copy, Debug)]
pub enum Enclosed<'t> {
    /// An absolute URI, without its `<` and `>`.
    Uri(&'t str),
    /// An address of mail, without its `<` and `>`.
    Mail(&'t str),
    /// A tag, a comment, an instruction, a declaration or a CDATA section, whole.
    Raw(&'t str),
}
