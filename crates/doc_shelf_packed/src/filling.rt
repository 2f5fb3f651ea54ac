//! Packed pages with their links as a reader sees them.

ghost use Rattle.std.specs.Prelude.{◌≡◌, ◌++◌, string_bytes, OnOk, OnErr};
ghost use Rattle.std.specs.Io.{StartsWith};
ghost use Rattle.std.specs.List.{flat_map};
ghost use Rattle.doc_page_parts.specs.Pages.{filled_piece};
ghost use Rattle.doc_shelf_packed.specs.Pieces.{piece_in, pieces_in};

use crate::packing::{DESTINATION, HTML};
use crate::unpacking::title_of;
use doc_index_tables::packed::Packed;
use doc_page_parts::failure::Memory;
use doc_page_parts::filling::push_opening_tag;
use doc_page_parts::heap::{Heap, String};
use doc_page_parts::linker::Linker;
use doc_page_parts::text::Text;

/// Room for a link's opening tag.
const LINK_ROOM: usize = 64;

/// Writes the pieces that texts are at the end of the buffer, where after a refusal part of them may stand. It takes no memory but the
/// buffer's, the linker's and that of titles.
pub fn push_pieces<L: Linker>(
    heap: Heap,
    out: &mut String,
    texts: &Packed,
    linker: &L,
) -> Result<(), Memory>
    ensures ok { OnOk result (string_bytes out.new ≡ string_bytes out.old
        ++ flat_map (filled_piece (L.shown linker.now)) (pieces_in texts.now)) }
    ensures err { OnErr result (StartsWith (string_bytes out.new) (string_bytes out.old)) }
{
    let mut title = None;
    'texts: for at in 0..texts.len() {
        let (text, number) = texts.get(at);
        push_piece(heap, out, &title, text, number, linker)?;
        title = title_of(heap, text, number)?;
    }
    Ok(())
}

/// Writes the piece that a text is, behind this title.
#[tactic(auto, using(doc_page_parts::proofs::BufferSteps::front_same, doc_page_parts::proofs::BufferSteps::front_more))]
fn push_piece<L: Linker>(
    heap: Heap,
    out: &mut String,
    title: &Option<Text>,
    text: &str,
    number: u64,
    linker: &L,
) -> Result<(), Memory>
    ensures ok { OnOk result (string_bytes out.new ≡ string_bytes out.old
        ++ flat_map (filled_piece (L.shown linker.now)) (piece_in title.now (text.now, number))) }
    ensures err { OnErr result (StartsWith (string_bytes out.new) (string_bytes out.old)) }
{
    if number == HTML {
        out.push_str(text)?;
        return Ok(());
    }
    if number == DESTINATION {
        let shown = linker.show(heap, text)?;
        return push_opening_tag(out, title, &shown);
    }
    Ok(())
}

/// About how many bytes the pieces that texts are take; long links take more.
pub fn room_of(texts: &Packed) -> usize {
    let mut room: usize = 0;
    for at in 0..texts.len() {
        let (text, number) = texts.get(at);
        room = room.saturating_add(room_for(text, number));
    }
    room
}

fn room_for(text: &str, number: u64) -> usize {
    if number == DESTINATION {
        return LINK_ROOM;
    }
    text.len()
}
