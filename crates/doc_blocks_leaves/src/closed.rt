//! What an open leaf leaves when it closes.
ghost use Rattle.std.specs.Prelude.{◌≡◌};
ghost use Rattle.doc_rules.specs.Blocks.{Blocks};
ghost use Rattle.doc_blocks_leaves.specs.Views.{with_block, with_closed};

use doc_blocks_starts::table_lines::TableLines;
use doc_blocks_starts::tag::LeafBlock;

/// The blocks that an open leaf leaves when it closes.
#[derive(Clone, Copy)]
pub struct Closed<'t> {
    /// Its block, or the paragraph before a table.
    pub block: Option<LeafBlock<'t>>,
    /// The lines of the table in a paragraph.
    pub table: Option<&'t TableLines<'t>>,
}

impl<'t> Closed<'t> {
    /// One block, or none.
    #[tactic(auto, unfolding(crate::specs::Views::with_closed, crate::specs::Views::with_block, crate::specs::Views::with_lines))]
    pub fn of(block: Option<LeafBlock<'t>>) -> Closed<'t>
        ensures { (before : Blocks) → with_closed result before ≡ with_block block.entry before }
    {
        Closed { block, table: None }
    }
}
