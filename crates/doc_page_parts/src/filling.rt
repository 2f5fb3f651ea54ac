//! Pages with their links as a reader sees them.

ghost use Rattle.std.specs.Prelude.{◌≡◌, ◌++◌, string_bytes, IfOk, OnOk, OnErr};
ghost use Rattle.std.specs.Io.{StartsWith};
ghost use Rattle.doc_page_parts.specs.Pages.{filled, filled_piece, opening_tag, title_attribute};

use crate::escaping::push_escaped;
use crate::failure::Memory;
use crate::heap::{Heap, String};
use crate::linker::{Linker, Shown};
use crate::rendered::{Piece, Rendered};
use crate::text::Text;

/// The page's pieces, joined, with its links as the linker shows them. It is for callers from outside: nothing in the
/// product calls it.
pub fn fill<L: Linker>(heap: Heap, page: &Rendered, linker: &L) -> Result<Text, Memory>
    ensures { IfOk result (λ html. html ≡ filled (L.shown linker.now) page.now) }
{
    let mut out = String::new(heap);
    push_filled(heap, &mut out, page, linker)?;
    Ok(Text::new(out))
}

/// Writes the filled page at the end of the buffer, where after a refusal part of it may stand.
#[tactic(auto, unfolding(crate::specs::Pages::filled), using(crate::proofs::BufferSteps::front_same, crate::proofs::BufferSteps::front_more))]
pub fn push_filled<L: Linker>(
    heap: Heap,
    out: &mut String,
    page: &Rendered,
    linker: &L,
) -> Result<(), Memory>
    ensures ok { OnOk result
        (string_bytes out.new ≡ string_bytes out.old ++ filled (L.shown linker.now) page.now) }
    ensures err { OnErr result (StartsWith (string_bytes out.new) (string_bytes out.old)) }
{
    out.reserve(room_of(page.pieces.get()))?;
    for piece in page.pieces.get() {
        push_piece(heap, out, piece, linker)?;
    }
    Ok(())
}

/// How many bytes pieces take, where each tag is a short one: a guess, on which nothing rests.
fn room_of(pieces: &[Piece]) -> usize {
    let mut room: usize = 0;
    for piece in pieces {
        room = room.saturating_add(room_of_piece(piece));
    }
    room
}

fn room_of_piece(piece: &Piece) -> usize {
    match piece {
        Piece::Html(html) => html.get().len(),
        Piece::Link(spot) => spot.dest.get().len().saturating_add(20),
    }
}

#[tactic(auto, using(crate::proofs::BufferSteps::front_same, crate::proofs::BufferSteps::front_more))]
fn push_piece<L: Linker>(
    heap: Heap,
    out: &mut String,
    piece: &Piece,
    linker: &L,
) -> Result<(), Memory>
    ensures ok { OnOk result
        (string_bytes out.new ≡ string_bytes out.old
        ++ filled_piece (L.shown linker.now) piece.now) }
    ensures err { OnErr result (StartsWith (string_bytes out.new) (string_bytes out.old)) }
{
    match piece {
        Piece::Html(html) => {
            out.push_str(html.get())?;
            Ok(())
        }
        Piece::Link(spot) => {
            let shown = linker.show(heap, spot.dest.get())?;
            push_opening_tag(out, &spot.title, &shown)
        }
    }
}

/// Writes the opening tag of a link (the HTML of CommonMark 0.31.2, section 6.3) at the end of the buffer, where after a refusal part of it
/// may stand. A link that leads nowhere has no title.
#[tactic(auto, using(crate::proofs::BufferSteps::front_same, crate::proofs::BufferSteps::front_more))]
pub fn push_opening_tag(out: &mut String, title: &Option<Text>, shown: &Shown) -> Result<(), Memory>
    ensures ok { OnOk result
        (string_bytes out.new ≡ string_bytes out.old ++ opening_tag title.now shown.now) }
    ensures err { OnErr result (StartsWith (string_bytes out.new) (string_bytes out.old)) }
{
    match shown {
        Shown::Href(href) => {
            out.push_str("<a href=\"")?;
            out.push_str(href.get())?;
            out.push_str("\"")?;
            push_title(out, title)?;
            out.push_str(">")?;
        }
        Shown::Missing => out.push_str("<a class=\"missing\">")?,
    }
    Ok(())
}

/// Writes the attribute of a title, where there is one, at the end of the buffer, where after a refusal part of it may stand.
#[tactic(auto, using(crate::proofs::BufferSteps::front_same, crate::proofs::BufferSteps::front_more))]
pub fn push_title(out: &mut String, title: &Option<Text>) -> Result<(), Memory>
    ensures ok { OnOk result
        (string_bytes out.new ≡ string_bytes out.old ++ title_attribute title.now) }
    ensures err { OnErr result (StartsWith (string_bytes out.new) (string_bytes out.old)) }
{
    if let Some(title) = title {
        out.push_str(" title=\"")?;
        push_escaped(out, title.get())?;
        out.push_str("\"")?;
    }
    Ok(())
}
