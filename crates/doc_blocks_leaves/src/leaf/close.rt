//! What an open leaf becomes when it closes.
ghost use Rattle.std.specs.Prelude.{◌≡◌, IfOk, OnOk};
ghost use Rattle.doc_rules.specs.Blocks.{Blocks};
ghost use Rattle.doc_blocks_leaves.specs.Leaves.{with_open, open_references};
ghost use Rattle.doc_refs_parts.specs.Targets.{targets_of, joined};
ghost use Rattle.doc_blocks_leaves.specs.OpenLeaves.{leaf_shown};
ghost use Rattle.doc_blocks_leaves.specs.Views.{with_closed};

use crate::closed::Closed;
use crate::gathered::Gathered;
use crate::leaf::kind::Kind;
use crate::paragraph::paragraph_blocks;
use doc_blocks_starts::tag::LeafBlock;
use doc_blocks_starts::texts::Texts;
use doc_lines::entities::Entities;
use doc_page_parts::failure::Memory;
use doc_page_parts::heap::Heap;
use doc_refs::RefMap;

/// The blocks that an open leaf of these lines is, with their texts in `texts`. The definitions that leave it join `refs`.
#[tactic(auto, unfolding(crate::specs::Leaves::with_open, crate::specs::Leaves::open_references))]
pub fn closed<'t>(
    heap: Heap,
    texts: &'t Texts,
    kind: Kind,
    lines: &Gathered,
    entities: &Entities,
    refs: &mut RefMap,
) -> Result<Closed<'t>, Memory>
    ensures blocks { IfOk result (λ blocks. (before : Blocks)
        → with_closed blocks before ≡ with_open entities.now (leaf_shown kind lines.now) before) }
    ensures refs { OnOk result (refs.new ≡ joined refs.old
        (targets_of (open_references entities.now (leaf_shown kind lines.now)))) }
{
    match kind {
        Kind::Nothing => Ok(Closed::of(None)),
        Kind::Paragraph { .. } => paragraph_blocks(heap, texts, lines.all(), entities, refs),
        Kind::Code => Ok(Closed::of(Some(LeafBlock::Code(texts.keep(lines.kept())?)))),
        Kind::Fenced { fence: _, info } => Ok(Closed::of(Some(LeafBlock::Fence {
            info: texts.keep(info.get())?,
            text: texts.keep(lines.all())?,
        }))),
        Kind::Html(_) => Ok(Closed::of(Some(LeafBlock::Html(texts.keep(lines.kept())?)))),
    }
}
