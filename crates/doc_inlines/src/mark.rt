//! Marks that own what they name.
ghost use Rattle.std.specs.Prelude.{◌≡◌, flat_map, chars, IfOk};
ghost use Rattle.doc_lines.specs.Entities.{characters};
ghost use Rattle.doc_inlines.specs.Marks.{span_shown, inlines_shown, slice_in, AreCut, IsOwned};
ghost use Rattle.doc_inlines_marks.specs.Slices as lent;
ghost use Rattle.doc_inlines_marks.specs.Views as lent_views;

use doc_inlines_marks::mark_ref::{MarkRef, SpanRef};
use doc_lines::pushing::push_characters;
use doc_page_parts::failure::Memory;
use doc_page_parts::heap::{Heap, String, Vec};
use doc_page_parts::text::Text;
use doc_refs::Target;

/// What inlines may stand in (CommonMark 0.31.2, sections 6.2 to 6.4), also what is struck through (GFM 0.29, section 6.5).
#[derive(Debug, Drop)]
pub enum Span {
    Emphasis,
    Strong,
    Strike,
    Link(Target),
    Image(Target),
}

/// An inline, or the start or the end of a span of inlines (CommonMark 0.31.2, section 6). Its slices are of the text that was read.
#[derive(Debug, Drop)]
pub enum Mark<'t> {
    /// Text. Of `&`, `<`, `>` and `"` each is a text of its own. It may be empty.
    Text(&'t str),
    /// The text of a code span, with its line endings, which stand for spaces.
    Code(&'t str),
    /// A soft line break.
    Soft,
    /// A hard line break.
    Hard,
    /// Raw HTML.
    Raw(&'t str),
    /// A character reference: as it stands, and the characters that it stands for.
    Reference { source: &'t str, text: Text },
    Start(Span),
    End(Span),
}

/// The same marks, which own what they name.
pub(crate) fn owned<'t, 'r>(heap: Heap, marks: &[MarkRef<'t, 'r>]) -> Result<Vec<Mark<'t>>, Memory>
    ensures shown { IfOk result (λ made. inlines_shown made.items
        ≡ lent_views.inlines_shown marks.now) }
    ensures slices { IfOk result (λ made. flat_map slice_in made.items
        ≡ flat_map lent.slice_in marks.now) }
    ensures cut { IfOk result (λ made. lent.AreCut marks.now → AreCut made.items) }
{
    let mut made = Vec::with_capacity(heap, marks.len())?;
    for mark in marks {
        made.push(owned_mark(heap, *mark)?)?;
    }
    Ok(made)
}

#[tactic(auto, unfolding(crate::specs::Marks::inlines_in, crate::specs::Marks::slice_in, doc_inlines_marks::specs::Views::inlines_in, doc_inlines_marks::specs::Slices::slice_in))]
fn owned_mark<'t, 'r>(heap: Heap, mark: MarkRef<'t, 'r>) -> Result<Mark<'t>, Memory>
    ensures { IfOk result (λ made. IsOwned mark.entry made) }
{
    match mark {
        MarkRef::Text(text) => Ok(Mark::Text(text)),
        MarkRef::Code(text) => Ok(Mark::Code(text)),
        MarkRef::Soft => Ok(Mark::Soft),
        MarkRef::Hard => Ok(Mark::Hard),
        MarkRef::Raw(text) => Ok(Mark::Raw(text)),
        MarkRef::Reference(reference) => {
            let text = text_of(heap, reference.those)?;
            Ok(Mark::Reference {
                source: reference.source,
                text,
            })
        }
        MarkRef::Start(span) => Ok(Mark::Start(owned_span(heap, span)?)),
        MarkRef::End(span) => Ok(Mark::End(owned_span(heap, span)?)),
    }
}

#[tactic(auto, unfolding(crate::specs::Marks::span_shown, doc_inlines_marks::specs::Views::span_shown))]
fn owned_span<'t, 'r>(heap: Heap, span: SpanRef<'t, 'r>) -> Result<Span, Memory>
    ensures { IfOk result (λ made. span_shown made ≡ lent_views.span_shown span.entry) }
{
    match span {
        SpanRef::Emphasis => Ok(Span::Emphasis),
        SpanRef::Strong => Ok(Span::Strong),
        SpanRef::Strike => Ok(Span::Strike),
        SpanRef::Link(target) => Ok(Span::Link(target.to_target(heap)?)),
        SpanRef::Image(target) => Ok(Span::Image(target.to_target(heap)?)),
    }
}

/// These characters as a text.
fn text_of(heap: Heap, those: (char, Option<char>)) -> Result<Text, Memory>
    ensures { IfOk result (λ text. chars text ≡ characters those) }
{
    let mut out = String::new(heap);
    push_characters(&mut out, those)?;
    Ok(Text::new(out))
}
