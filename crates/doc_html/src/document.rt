//! Documents as HTML.
ghost use Rattle.std.specs.Prelude.{◌≡◌, [], List, encode_utf8_all, IfOk};
ghost use Rattle.doc_rules.specs.Blocks.{Blocks};
ghost use Rattle.doc_rules.specs.Definitions.{Definition};
ghost use Rattle.doc_rules.specs.Html.{html_of};
ghost use Rattle.doc_rules.specs.Html as rules;
ghost use Rattle.doc_rules.specs.Laws.{ShowsAlike};
ghost use Rattle.doc_refs_parts.specs.Targets.{targets_of};
ghost use Rattle.doc_blocks_starts.specs.Tags.{tags_of, tags_shown};
ghost use Rattle.doc_blocks.specs.Views.{blocks_shown};
ghost use Rattle.doc_html.specs.HtmlBytes.{html_bytes};

use crate::blocks::push_all;
use crate::flattening::tags_of;
use crate::html_writer::HtmlWriter;
use crate::links::{ByLinker, Links};
use crate::reading::Source;
use doc_blocks::Document;
use doc_blocks_starts::tag::Tag;
use doc_blocks_starts::texts::Texts;
use doc_inlines_marks::arena::Arena;
use doc_lines::entities::Entities;
use doc_page_parts::failure::Memory;
use doc_page_parts::heap::Heap;
use doc_page_parts::linker::Linker;
use doc_page_parts::text::Text;
use doc_refs::RefMap;

/// The document as HTML in the form of the examples of CommonMark 0.31.2, its links as the linker shows them. Headings carry no anchors.
/// Where a rule over characters shows links as the linker does, the HTML is that of the rule. It is for callers from outside: the
/// product renders pages.
pub fn to_html<L: Linker>(
    heap: Heap,
    document: &Document,
    entities: &Entities,
    linker: &L,
) -> Result<Text, Memory>
    ensures bytes { (definitions : List Definition) → document.now.refs ≡ targets_of definitions →
        IfOk result (λ html. html ≡ html_bytes entities.now (L.shown linker.now) []
        (record { blocks = blocks_shown document.now.blocks.items; refs = definitions })) }
    ensures alike { (definitions : List Definition) (rule : rules.Linker)
        → document.now.refs ≡ targets_of definitions → ShowsAlike (L.shown linker.now) rule →
        IfOk result (λ html. html ≡ encode_utf8_all
        (html_of entities.now rule []
        (record { blocks = blocks_shown document.now.blocks.items; refs = definitions }))) }
{
    let texts = Texts::new(heap);
    let tags = tags_of(heap, &texts, document.blocks.as_slice())?;
    let html = write_html(
        heap,
        tags.as_slice(),
        &document.refs,
        entities,
        &ByLinker { linker },
        0,
    )?;
    Ok(html)
}

/// The document with these tags as HTML, its links as these are shown, with room for so many bytes: a guess, on which nothing rests.
pub(crate) fn write_html<K: Links>(
    heap: Heap,
    tags: &[Tag],
    refs: &RefMap,
    entities: &Entities,
    links: &K,
    room: usize,
) -> Result<Text, Memory>
    ensures { (definitions : List Definition) (blocks : Blocks)
        → refs.now ≡ targets_of definitions → tags_shown tags.now ≡ tags_of blocks →
        IfOk result (λ html. html ≡ html_bytes entities.now (K.shown links.now) []
        (record { blocks = blocks; refs = definitions })) }
{
    let arena = Arena::new(heap);
    let texts = Texts::new(heap);
    let source = Source {
        heap,
        refs,
        entities,
        arena: &arena,
        texts: &texts,
    };
    let mut writer = HtmlWriter::new(heap, links, room)?;
    push_all(&mut writer, &source, tags)?;
    Ok(writer.into_text())
}
