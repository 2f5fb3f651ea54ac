//! Pieces of texts.

ghost use Rattle.std.specs.Prelude.{◌≡◌, ◌++◌, IfOk, OnOk};
ghost use Rattle.doc_shelf_packed.specs.Pieces.{piece_in, pieces_in, title_in};

use crate::packing::{DESTINATION, HTML, TITLE};
use doc_index_tables::packed::Packed;
use doc_page_parts::failure::Memory;
use doc_page_parts::heap::{Heap, Vec};
use doc_page_parts::list::List;
use doc_page_parts::rendered::{LinkSpot, Piece};
use doc_page_parts::text::Text;

/// The pieces that texts are.
pub fn pieces_of(heap: Heap, texts: &Packed) -> Result<List<Piece>, Memory>
    ensures { IfOk result (λ pieces. pieces ≡ pieces_in texts.now) }
{
    let mut pieces = Vec::with_capacity(heap, texts.len())?;
    let mut title = None;
    'texts: for at in 0..texts.len() {
        let (text, number) = texts.get(at);
        push_piece(heap, &mut pieces, title, text, number)?;
        title = title_of(heap, text, number)?;
    }
    Ok(List::new(pieces))
}

/// Adds the piece that a text is, behind this title.
fn push_piece(
    heap: Heap,
    pieces: &mut Vec<Piece>,
    title: Option<Text>,
    text: &str,
    number: u64,
) -> Result<(), Memory>
    ensures { OnOk result (pieces.new.items
        ≡ pieces.old.items ++ piece_in title (text.now, number)) }
{
    if number == HTML {
        pieces.push(Piece::Html(Text::copy_of(heap, text)?))?;
        return Ok(());
    }
    if number == DESTINATION {
        let dest = Text::copy_of(heap, text)?;
        pieces.push(Piece::Link(LinkSpot { dest, title }))?;
    }
    Ok(())
}

/// The title that a text is, for the link behind it.
pub fn title_of(heap: Heap, text: &str, number: u64) -> Result<Option<Text>, Memory>
    ensures { IfOk result (λ title. title ≡ title_in (text.now, number)) }
{
    if number != TITLE {
        return Ok(None);
    }
    Ok(Some(Text::copy_of(heap, text)?))
}
