//! The pieces, headings, texts and images of a page as they are written (this project's choice).
ghost use Rattle.std.specs.Prelude.{◌≡◌, [], ◌++◌, List, Some, chars, codes, encode_utf8_all, string_bytes, IfOk, OnOk};
ghost use Rattle.doc_page_parts.specs.Escaping.{escaped};
ghost use Rattle.doc_page.specs.Plain.{html_pieces};
ghost use Rattle.doc_page_parts.specs.declared.linker.Shown.{Shown};
ghost use Rattle.doc_page_parts.specs.declared.rendered.Piece.TheVariants.{Link};
ghost use Rattle.doc_rules.specs.Pages.{LinkPiece, encoded_piece};
ghost use Rattle.doc_inlines_marks.specs.Targets.{named};
ghost use Rattle.doc_html.specs.PlainLinks.{plain_shown};
ghost use Rattle.doc_html.specs.ProgressSteps.{Progress, begun};
ghost use Rattle.doc_html.specs.WrittenPageSteps.{HoldsPage, page_told};

use crate::escaping::push_escaped;
use crate::fresh::fresh_behind;
use crate::html_writer::title_is_text;
use crate::plain_text::plain_text;
use crate::writer::Writer;
use doc_html_anchors::Anchors;
use doc_inlines_marks::mark_ref::MarkRef;
use doc_inlines_marks::target_ref::TargetRef;
use doc_page_parts::failure::Memory;
use doc_page_parts::heap::{Heap, String, Vec};
use doc_page_parts::list::List;
use doc_page_parts::rendered::{Heading, LinkSpot, Piece, Rendered};
use doc_page_parts::text::Text;

/// A page so far: its pieces, the HTML behind the last link, the anchors that are used, its headings, its texts and
/// the destinations of its images, where it is to tell them. It is fresh where nothing was written or a LF was written last.
#[derive(Drop)]
pub(crate) struct PageWriter {
    heap: Heap,
    pieces: Vec<Piece>,
    html: String,
    fresh: bool,
    anchors: Anchors,
    headings: Vec<Heading>,
    texts: Vec<Text>,
    tells_images: bool,
    images: Vec<Text>,
}

impl PageWriter {
    /// Nothing is written yet. Images are told or not.
    pub(crate) fn new(heap: Heap, tells_images: bool) -> Self
        ensures { HoldsPage result.pieces.items (string_bytes result.html) result.fresh
            result.anchors result.headings.items result.texts.items result.tells_images
            result.images.items (begun plain_shown tells_images (Some [])) }
    {
        PageWriter {
            heap,
            pieces: Vec::new(heap),
            html: String::new(heap),
            fresh: true,
            anchors: Anchors::new(heap),
            headings: Vec::new(heap),
            texts: Vec::new(heap),
            tells_images,
            images: Vec::new(heap),
        }
    }

    /// The page.
    pub(crate) fn into_page(self) -> Result<Rendered, Memory>
        ensures { (p : Progress)
            → HoldsPage self.pieces.items (string_bytes self.html) self.fresh self.anchors
            self.headings.items self.texts.items self.tells_images self.images.items p →
            IfOk result (λ page. page ≡ page_told p) }
    {
        let PageWriter {
            heap: _,
            mut pieces,
            mut html,
            fresh: _,
            anchors: _,
            mut headings,
            texts,
            tells_images: _,
            images,
        } = self;
        html.shrink_to_fit();
        push_last(&mut pieces, html)?;
        pieces.shrink_to_fit();
        headings.shrink_to_fit();
        Ok(Rendered {
            pieces: List::new(pieces),
            headings: List::new(headings),
            texts: List::new(texts),
            images: List::new(images),
        })
    }
}

impl Writer for PageWriter {
    ghost holds = { λ w p. HoldsPage w.pieces.items (string_bytes w.html) w.fresh w.anchors w.headings.items
        w.texts.items w.tells_images w.images.items p };

    fn text(&mut self, text: &str) -> Result<(), Memory> {
        self.html.push_str(text)?;
        self.fresh = fresh_behind(self.fresh, text);
        Ok(())
    }

    fn escaped(&mut self, text: &str) -> Result<(), Memory> {
        push_escaped(&mut self.html, text)?;
        self.fresh = fresh_behind(self.fresh, text);
        Ok(())
    }

    fn link(&mut self, target: TargetRef) -> Result<(), Memory> {
        let spot = spot_of(self.heap, target)?;
        cut(self.heap, &mut self.pieces, &mut self.html)?;
        self.pieces.push(Piece::Link(spot))?;
        self.fresh = false;
        Ok(())
    }

    fn image(&mut self, dest: &str) -> Result<(), Memory> {
        self.fresh = false;
        if !self.tells_images {
            return Ok(());
        }
        let dest = Text::copy_of(self.heap, dest)?;
        self.images.push(dest)?;
        Ok(())
    }

    fn new_line(&mut self) -> Result<(), Memory> {
        if self.fresh {
            return Ok(());
        }
        self.html.push_str("\n")?;
        self.fresh = true;
        Ok(())
    }

    fn meet_text(&mut self, text: &str) -> Result<(), Memory> {
        let text = Text::copy_of(self.heap, text)?;
        self.texts.push(text)?;
        Ok(())
    }

    fn meet_paragraph(&mut self, marks: &[MarkRef]) -> Result<(), Memory> {
        let text = plain_text(self.heap, marks)?;
        self.texts.push(text)?;
        Ok(())
    }

    fn meet_heading(&mut self, level: u8, marks: &[MarkRef]) -> Result<(), Memory> {
        let text = plain_text(self.heap, marks)?;
        let anchor = self.anchors.next(self.heap, text.get())?;
        push_id(&mut self.html, anchor.get())?;
        self.fresh = false;
        let heading = Heading {
            level,
            anchor,
            text: text.copy(self.heap)?,
        };
        self.headings.push(heading)?;
        self.texts.push(text)?;
        Ok(())
    }
}

/// Cuts the HTML off as a piece, where there is some. The buffer keeps its room.
fn cut(heap: Heap, pieces: &mut Vec<Piece>, html: &mut String) -> Result<(), Memory>
    ensures pieces { OnOk result (pieces.new.items ≡ pieces.old.items
        ++ html_pieces (string_bytes html.old)) }
    ensures html { OnOk result (string_bytes html.new ≡ []) }
{
    if html.as_str().is_empty() {
        return Ok(());
    }
    let piece = Text::copy_of(heap, html)?;
    pieces.push(Piece::Html(piece))?;
    html.clear();
    Ok(())
}

/// Adds the last HTML as a piece, where there is some.
fn push_last(pieces: &mut Vec<Piece>, html: String) -> Result<(), Memory>
    ensures { OnOk result (pieces.new.items ≡ pieces.old.items
        ++ html_pieces (string_bytes html)) }
{
    if html.as_str().is_empty() {
        return Ok(());
    }
    pieces.push(Piece::Html(Text::new(html)))?;
    Ok(())
}

/// The place of a link's opening tag.
fn spot_of(heap: Heap, target: TargetRef) -> Result<LinkSpot, Memory>
    ensures { IfOk result (λ spot. Link spot
        ≡ encoded_piece (LinkPiece (named target.entry))) }
{
    let dest = target.dest(heap)?.into_text(heap)?;
    let title = target.title(heap)?;
    dest_is_text(&dest);
    title_is_text(&title);
    Ok(LinkSpot { dest, title })
}

/// A destination's bytes are those of its characters, as of any text.
fn dest_is_text(dest: &Text)
    ensures { encode_utf8_all (chars dest.now) ≡ dest.now }
{
    let _text = dest.get();
}

/// Adds the attribute with an anchor.
fn push_id(out: &mut String, anchor: &str) -> Result<(), Memory>
    ensures { OnOk result (string_bytes out.new ≡ string_bytes out.old
        ++ (codes " id=\"" ++ escaped anchor.now ++ codes "\"")) }
{
    out.push_str(" id=\"")?;
    push_escaped(out, anchor)?;
    out.push_str("\"")?;
    Ok(())
}
