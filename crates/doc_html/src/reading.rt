//! What the inlines of a document are read with.
use doc_blocks_starts::texts::Texts;
use doc_inlines_marks::arena::Arena;
use doc_lines::entities::Entities;
use doc_page_parts::heap::Heap;
use doc_refs::RefMap;

/// What the inlines of a document are read with.
#[derive(Drop)]
pub(crate) struct Source<'d> {
    pub(crate) heap: Heap,
    pub(crate) refs: &'d RefMap,
    pub(crate) entities: &'d Entities,
    /// Where what the marks name stands.
    pub(crate) arena: &'d Arena,
    /// Where cells stand that aren't read as they stand in their line.
    pub(crate) texts: &'d Texts,
}
