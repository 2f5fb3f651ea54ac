//! Brackets that are open: where one stands among the marks, so that its mark can become a start, and in the text, so that what stands
//! between it and its `]` is a slice.

use doc_inlines_emphasis::Place;

/// A `[` or `![` that no `]` closed yet (CommonMark 0.31.2, sections 6.3 and 6.4). It has a mark of its own.
#[derive(Clone, Copy, Drop)]
pub(crate) struct Bracket<'t> {
    /// The place in front of its mark.
    pub(crate) place: Place,
    /// Whether it is `![`.
    pub(crate) image: bool,
    /// Whether it, or one that is open before it, is `![`.
    pub(crate) images: bool,
    /// The text behind it.
    pub(crate) behind: &'t str,
}
