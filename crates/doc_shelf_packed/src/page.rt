//! Renderings that are packed.

ghost use Rattle.std.specs.Prelude.{◌≡◌, ◌++◌, string_bytes, IfOk, OnOk, OnErr};
ghost use Rattle.std.specs.Io.{StartsWith};
ghost use Rattle.doc_page_parts.specs.Pages.{filled};

use crate::copying::{headings_of, texts_of};
use crate::filling::{push_pieces, room_of};
use crate::packing;
use crate::unpacking::pieces_of;
use doc_index_tables::packed::Packed;
use doc_page_parts::failure::Memory;
use doc_page_parts::heap::{Heap, String};
use doc_page_parts::linker::Linker;
use doc_page_parts::list::List;
use doc_page_parts::rendered::{Heading, Piece, Rendered};
use doc_page_parts::text::Text;
use std::marker::Model;

/// A rendering whose pieces stand in one text. Contracts see the rendering.
#[derive(Drop)]
pub struct PackedPage {
    pieces: Packed,
    headings: List<Heading>,
    texts: List<Text>,
    images: List<Text>,
}

impl Model for PackedPage {
    ghost use Rattle.doc_page_parts.specs.contracts.rendered.Rendered as one;
    ghost use Rattle.doc_page_parts.specs.declared.rendered.Rendered.{Rendered};
    ghost use Rattle.doc_shelf_packed.specs.Pieces.{pieces_in};

    ghost Value = { Rendered };

    ghost coded = { one.the_row.coded };

    ghost view = { λ p. record {
      pieces = pieces_in p.pieces;
      headings = p.headings;
      texts = p.texts;
      images = p.images;
    } };
}

impl PackedPage {
    /// The rendering, packed. Its headings, texts and images are moved, and its pieces are dropped.
    pub fn of(heap: Heap, page: Rendered) -> Result<PackedPage, Memory>
        ensures { IfOk result (λ packed. packed ≡ page) }
    {
        let Rendered {
            pieces,
            headings,
            texts,
            images,
        } = page;
        let entries = packing::texts_of(heap, pieces.get())?;
        let pieces = Packed::of_entries(heap, &entries)?;
        Ok(PackedPage {
            pieces,
            headings,
            texts,
            images,
        })
    }

    /// The same again.
    pub fn copy(&self, heap: Heap) -> Result<PackedPage, Memory>
        ensures { IfOk result (λ packed. packed ≡ self.now) }
    {
        Ok(PackedPage {
            pieces: self.pieces.copy(heap)?,
            headings: headings_of(heap, self.headings.get())?,
            texts: texts_of(heap, self.texts.get())?,
            images: texts_of(heap, self.images.get())?,
        })
    }

    /// The headings, in order.
    pub fn headings(&self) -> &[Heading]
        ensures { result.now ≡ self.now.headings }
    {
        self.headings.get()
    }

    /// The plain text of each block of text, in order.
    pub fn texts(&self) -> &[Text]
        ensures { result.now ≡ self.now.texts }
    {
        self.texts.get()
    }

    /// The destinations of the images, in order, as their sources are written.
    pub fn images(&self) -> &[Text]
        ensures { result.now ≡ self.now.images }
    {
        self.images.get()
    }

    /// The pieces, made anew.
    pub fn pieces(&self, heap: Heap) -> Result<List<Piece>, Memory>
        ensures { IfOk result (λ pieces. pieces ≡ self.now.pieces) }
    {
        pieces_of(heap, &self.pieces)
    }

    /// About how many bytes the page takes once it is filled: a guess, on which nothing rests.
    pub fn room(&self) -> usize {
        room_of(&self.pieces)
    }

    /// Writes the page with its links as the linker shows them at the end of the buffer, where after a refusal part of it may stand. No
    /// piece is made, and of the buffer no room is reserved.
    #[tactic(auto, unfolding(doc_page_parts::specs::Pages::filled))]
    pub fn push_filled<L: Linker>(
        &self,
        heap: Heap,
        out: &mut String,
        linker: &L,
    ) -> Result<(), Memory>
        ensures ok { OnOk result
            (string_bytes out.new ≡ string_bytes out.old ++ filled (L.shown linker.now) self.now) }
        ensures err { OnErr result (StartsWith (string_bytes out.new) (string_bytes out.old)) }
    {
        push_pieces(heap, out, &self.pieces, linker)
    }
}
