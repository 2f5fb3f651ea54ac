//! Calls of `doc_page` on texts and pages. HTML is printed as a text is written in the input.

use crate::texts::hides::Hides;
use crate::texts::of_pages;
use crate::texts::printed::printed_made;
use crate::texts::tools::Tools;
use doc_html::PlainLinker;
use doc_page_parts::escaping::escape;
use doc_page_parts::failure::Memory;
use doc_page_parts::filling::fill;
use doc_page_parts::heap::{Heap, String, Vec};
use doc_page_parts::linker::Linker;
use doc_page_parts::list::List;
use doc_page_parts::rendered::{LinkSpot, Piece, Rendered};
use doc_page_parts::text::Text;
use trial::answer::two_texts;

/// What is printed for a call of this name.
pub fn called(tools: Tools<'_>, name: &str, given: &str) -> Result<String, Memory> {
    match name {
        "escape" => printed_made(tools.heap, escape(tools.heap, given)),
        "fill" => printed_made(tools.heap, filled(tools, given, &PlainLinker)),
        "fill_without_links" => printed_made(tools.heap, filled(tools, given, &Hides)),
        _ => of_pages::called(tools, name, given),
    }
}

/// `DEST | TITLE` or `DEST`: a page of `<p>`, the link, and `x</a></p>`, filled.
fn filled<L: Linker>(tools: Tools<'_>, given: &str, linker: &L) -> Result<Text, Memory> {
    let mut pieces = Vec::new(tools.heap);
    let pushed = push_pieces(tools.heap, &mut pieces, given);
    let page = page_of(tools.heap, pieces);
    let html = match pushed {
        Ok(()) => fill(tools.heap, &page, linker),
        Err(Memory) => Err(Memory),
    };
    drop(page);
    html
}

fn push_pieces(heap: Heap, pieces: &mut Vec<Piece>, given: &str) -> Result<(), Memory> {
    push_html(heap, pieces, "<p>")?;
    push_link(heap, pieces, given)?;
    push_html(heap, pieces, "x</a></p>")
}

fn push_html(heap: Heap, pieces: &mut Vec<Piece>, html: &str) -> Result<(), Memory> {
    pieces.push(Piece::Html(Text::copy_of(heap, html)?))?;
    Ok(())
}

fn push_link(heap: Heap, pieces: &mut Vec<Piece>, given: &str) -> Result<(), Memory> {
    let spot = match two_texts(given) {
        Some((dest, title)) => spot_of(heap, dest, Some(Text::copy_of(heap, title)?)),
        None => spot_of(heap, given, None),
    };
    pieces.push(Piece::Link(spot?))?;
    Ok(())
}

fn spot_of(heap: Heap, dest: &str, title: Option<Text>) -> Result<LinkSpot, Memory> {
    match Text::copy_of(heap, dest) {
        Ok(dest) => Ok(LinkSpot { dest, title }),
        Err(Memory) => Err(Memory),
    }
}

fn page_of(heap: Heap, pieces: Vec<Piece>) -> Rendered {
    Rendered {
        pieces: List::new(pieces),
        headings: List::new(Vec::new(heap)),
        texts: List::new(Vec::new(heap)),
        images: List::new(Vec::new(heap)),
    }
}
