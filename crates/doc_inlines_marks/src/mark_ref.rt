//! Marks.

use crate::target_ref::TargetRef;

/// What inlines may stand in (CommonMark 0.31.2, sections 6.2 to 6.4), also what is struck through (GFM 0.29, section 6.5).
#[derive(Clone, Copy)]
pub enum SpanRef<'t, 'r> {
    Emphasis,
    Strong,
    Strike,
    Link(&'r TargetRef<'t, 'r>),
    Image(&'r TargetRef<'t, 'r>),
}

/// A character reference: as it stands, and the one or two characters that it stands for (CommonMark 0.31.2, section 2.5).
#[derive(Clone, Copy)]
pub struct ReferenceRef<'t> {
    pub source: &'t str,
    pub those: (char, Option<char>),
}

/// An inline, or the start or the end of a span of inlines (CommonMark 0.31.2, section 6), in 24 bytes. Its slices are of the text that
/// was read; what has more than one stands in an [`Arena`](crate::arena::Arena).
#[derive(Clone, Copy)]
pub enum MarkRef<'t, 'r> {
    /// Text. Of `&`, `<`, `>` and `"` each is a text of its own. It may be empty.
    Text(&'t str),
    /// The text of a code span, with its line endings, which stand for spaces.
    Code(&'t str),
    /// A soft line break.
    Soft,
    /// A hard line break.
    Hard,
    /// Raw HTML.
    Raw(&'t str),
    Reference(&'r ReferenceRef<'t>),
    Start(SpanRef<'t, 'r>),
    End(SpanRef<'t, 'r>),
}
