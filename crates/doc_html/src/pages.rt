//! Pages of texts (this project's choice).
ghost use Rattle.std.specs.Prelude.{◌≡◌, List, chars, IfOk};
ghost use Rattle.doc_rules.specs.Blocks.{Blocks};
ghost use Rattle.doc_rules.specs.Definitions.{Definition};
ghost use Rattle.doc_rules.specs.Pages.{document_page, encoded, rendered_of};
ghost use Rattle.doc_refs_parts.specs.Targets.{targets_of};
ghost use Rattle.doc_blocks_starts.specs.Tags.{tags_of, tags_shown};

use crate::blocks::push_all;
use crate::page_writer::PageWriter;
use crate::reading::Source;
use doc_blocks::tags;
use doc_blocks_starts::tag::Tag;
use doc_blocks_starts::texts::Texts;
use doc_inlines_marks::arena::Arena;
use doc_lines::entities::Entities;
use doc_page_parts::failure::Memory;
use doc_page_parts::heap::Heap;
use doc_page_parts::rendered::Rendered;
use doc_refs::RefMap;

/// The page of a text.
pub(crate) fn page_of(heap: Heap, text: &str, entities: &Entities) -> Result<Rendered, Memory>
    ensures { IfOk result (λ page. page ≡ rendered_of entities.now (chars text.now)) }
{
    let texts = Texts::new(heap);
    let tagged = tags(heap, &texts, text, entities)?;
    let page = page_of_tags(heap, tagged.tags.as_slice(), &tagged.refs, entities)?;
    Ok(page)
}

/// The page of a document with these tags.
fn page_of_tags(
    heap: Heap,
    tags: &[Tag],
    refs: &RefMap,
    entities: &Entities,
) -> Result<Rendered, Memory>
    ensures { (definitions : List Definition) (blocks : Blocks)
        → refs.now ≡ targets_of definitions → tags_shown tags.now ≡ tags_of blocks →
        IfOk result (λ page. page ≡ encoded
        (document_page entities.now (record { blocks = blocks; refs = definitions }))) }
{
    let arena = Arena::new(heap);
    let texts = Texts::new(heap);
    let source = Source {
        heap,
        refs,
        entities,
        arena: &arena,
        texts: &texts,
    };
    let mut writer = PageWriter::new(heap, entities.images());
    push_all(&mut writer, &source, tags)?;
    let page = writer.into_page()?;
    Ok(page)
}
