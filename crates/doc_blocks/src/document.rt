//! Documents as trees of blocks.
ghost use Rattle.std.specs.Prelude.{◌≡◌, chars, IfOk};
ghost use Rattle.doc_rules.specs.Blocks.{document_of};
ghost use Rattle.doc_refs_parts.specs.Targets.{targets_of};
ghost use Rattle.doc_blocks.specs.Views.{blocks_shown};

use crate::block::Block;
use crate::tagged::tags;
use crate::tree::tree_of;
use doc_blocks_starts::texts::Texts;
use doc_lines::entities::Entities;
use doc_page_parts::failure::Memory;
use doc_page_parts::heap::{Heap, Vec};
use doc_refs::RefMap;

/// The blocks of a document, and what its labels name.
#[derive(Drop)]
pub struct Document {
    pub blocks: Vec<Block>,
    pub refs: RefMap,
}

/// The document of a text (CommonMark 0.31.2, sections 4 and 5). At most 100 quotes and items are open at once: past that a marker is
/// text. Texts of blocks are without line endings of their own but LF, and inlines are still to be read in those of paragraphs and
/// headings. It is for callers from outside: the product reads tags.
pub fn blocks(heap: Heap, text: &str, entities: &Entities) -> Result<Document, Memory>
    ensures blocks { IfOk result (λ document. blocks_shown document.blocks.items
        ≡ (document_of entities.now (chars text.now)).blocks) }
    ensures refs { IfOk result (λ document. document.refs
        ≡ targets_of (document_of entities.now (chars text.now)).refs) }
{
    let texts = Texts::new(heap);
    let tagged = tags(heap, &texts, text, entities)?;
    Ok(Document {
        blocks: tree_of(heap, tagged.tags.as_slice())?,
        refs: tagged.refs,
    })
}
