//! Texts of pieces.

ghost use Rattle.std.specs.Prelude.{◌≡◌, ◌++◌, IfOk, OnOk};
ghost use Rattle.doc_index_tables.specs.Maps.{shown};
ghost use Rattle.doc_shelf_packed.specs.Pieces.{piece_texts, texts_of, title_texts};

use doc_page_parts::failure::Memory;
use doc_page_parts::heap::{Heap, Vec};
use doc_page_parts::rendered::Piece;
use doc_page_parts::text::Text;

/// The number of a text that is HTML.
pub const HTML: u64 = 0;

/// The number of a text that is the destination of a link.
pub const DESTINATION: u64 = 1;

/// The number of a text that is the title of the link behind it.
pub const TITLE: u64 = 2;

/// The texts of pieces, each with its number.
pub fn texts_of(heap: Heap, pieces: &[Piece]) -> Result<Vec<(&str, u64)>, Memory>
    ensures { IfOk result (λ texts. shown texts.items ≡ texts_of pieces.now) }
{
    let mut texts = Vec::with_capacity(heap, pieces.len())?;
    for piece in pieces {
        push_texts(&mut texts, piece)?;
    }
    Ok(texts)
}

fn push_texts<'a>(texts: &mut Vec<(&'a str, u64)>, piece: &'a Piece) -> Result<(), Memory>
    ensures { OnOk result (shown texts.new.items
        ≡ shown texts.old.items ++ piece_texts piece.now) }
{
    match piece {
        Piece::Html(html) => {
            texts.push((html.get(), HTML))?;
            Ok(())
        }
        Piece::Link(spot) => {
            push_title(texts, &spot.title)?;
            texts.push((spot.dest.get(), DESTINATION))?;
            Ok(())
        }
    }
}

fn push_title<'a>(texts: &mut Vec<(&'a str, u64)>, title: &'a Option<Text>) -> Result<(), Memory>
    ensures { OnOk result (shown texts.new.items
        ≡ shown texts.old.items ++ title_texts title.now) }
{
    if let Some(title) = title {
        texts.push((title.get(), TITLE))?;
    }
    Ok(())
}
