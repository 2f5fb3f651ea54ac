//! Texts as HTML.
ghost use Rattle.std.specs.Prelude.{◌≡◌, chars, encode_utf8_all, IfOk};
ghost use Rattle.doc_rules.specs.Html.{rendered_plain};

use crate::document::write_html;
use crate::links::AsTheyStand;
use doc_blocks::tags;
use doc_blocks_starts::texts::Texts;
use doc_lines::entities::Entities;
use doc_page_parts::failure::Memory;
use doc_page_parts::heap::Heap;
use doc_page_parts::text::Text;

/// The text as HTML, in the form of the examples of CommonMark 0.31.2.
pub fn render_plain(heap: Heap, text: &str, entities: &Entities) -> Result<Text, Memory>
    ensures { IfOk result (λ html. html ≡ encode_utf8_all
        (rendered_plain entities.now (chars text.now))) }
{
    let texts = Texts::new(heap);
    let tagged = tags(heap, &texts, text, entities)?;
    let html = write_html(
        heap,
        tagged.tags.as_slice(),
        &tagged.refs,
        entities,
        &AsTheyStand,
        room_of(text),
    )?;
    Ok(html)
}

/// How many bytes the HTML of a text takes, mostly: a guess, on which nothing rests.
fn room_of(text: &str) -> usize {
    text.len().saturating_add(text.len() / 2)
}
