//! Inlines as HTML (CommonMark 0.31.2, section 6; strikethrough: GitHub Flavored Markdown 0.29, section 6.5).
ghost use Rattle.std.specs.Prelude.{◌≡◌, ◌<◌, ◌+◌, ◌^◌, [], ◌∷◌, ◌++◌, true, chars, option_map, IfOk, OnOk};
ghost use Rattle.doc_rules.specs.Escaping.{html_escape};
ghost use Rattle.doc_rules.specs.Inlines as rules;
ghost use Rattle.doc_rules.specs.Html.{characters, inline_html, inlines_html, span_start, span_end};
ghost use Rattle.doc_page_parts.specs.Pages.{title_attribute};
ghost use Rattle.doc_lines.specs.Entities.{characters as both};
ghost use Rattle.doc_inlines_marks.specs.Slices.{AreCut, IsCut, is_cut};
ghost use Rattle.doc_inlines_marks.specs.Targets.{named};
ghost use Rattle.doc_inlines_marks.specs.Views.{inlines_in, inlines_shown, span_shown};
ghost use Rattle.doc_html.specs.ProgressSteps.{Writes};
ghost use Rattle.doc_html.specs.InlineSteps.{images_behind, mark_html, mark_plain};

use crate::code::{push_nothing, push_space, push_spaced};
use crate::destinations::url;
use crate::writer::{Writer, markup};
use doc_inlines_marks::mark_ref::{MarkRef, SpanRef};
use doc_inlines_marks::target_ref::TargetRef;
use doc_lines::pushing::push_characters;
use doc_page_parts::failure::Memory;
use doc_page_parts::heap::{Heap, String};
use doc_page_parts::text::Text;

/// Writes inlines. Inside an image their plain text alone is written.
pub(crate) fn push_marks<W: Writer>(
    writer: &mut W,
    heap: Heap,
    marks: &[MarkRef],
) -> Result<(), Memory>
    requires { AreCut marks.now }
    ensures { OnOk result (Writes W.holds writer.old writer.new
        (inlines_html 0 (inlines_shown marks.now))) }
{
    let mut images = 0;
    for mark in marks {
        images = push_mark(writer, heap, mark, images)?;
    }
    Ok(())
}

/// Writes a mark with so many images around it; answers how many stand around what follows it.
fn push_mark<W: Writer>(
    writer: &mut W,
    heap: Heap,
    mark: &MarkRef,
    images: usize,
) -> Result<usize, Memory>
    requires few { images + 1 < 2 ^ 64 }
    requires cut { IsCut mark.now }
    ensures written { OnOk result (Writes W.holds writer.old writer.new
        (inlines_html images (inlines_in mark.now))) }
    ensures behind { IfOk result (λ behind. behind ≡ images_behind images mark.now) }
{
    let behind = images_behind(mark, images);
    if images > 0 && behind > 0 {
        push_plain(writer, heap, mark)?;
        return Ok(behind);
    }
    push_whole(writer, heap, mark)?;
    Ok(behind)
}

/// How many images stand around what follows a mark.
fn images_behind(mark: &MarkRef, images: usize) -> usize
    requires { images + 1 < 2 ^ 64 }
    ensures { result ≡ images_behind images mark.now }
{
    match mark {
        MarkRef::Start(SpanRef::Image(_)) => images + 1,
        MarkRef::End(SpanRef::Image(_)) => images.saturating_sub(1),
        _ => images,
    }
}

/// Writes the plain text of a mark.
fn push_plain<W: Writer>(writer: &mut W, heap: Heap, mark: &MarkRef) -> Result<(), Memory>
    requires { IsCut mark.now }
    ensures { OnOk result (Writes W.holds writer.old writer.new
        (characters (html_escape (mark_plain mark.now)))) }
{
    match mark {
        MarkRef::Text(text) => push_cut(writer, text),
        MarkRef::Code(text) => push_spaced(writer, text),
        MarkRef::Soft => push_space(writer),
        MarkRef::Hard => push_space(writer),
        MarkRef::Reference(reference) => push_reference(writer, heap, reference.those),
        MarkRef::Raw(_) => push_nothing(writer),
        MarkRef::Start(_) => push_nothing(writer),
        MarkRef::End(_) => push_nothing(writer),
    }
}

/// Writes a mark that stands in no image.
fn push_whole<W: Writer>(writer: &mut W, heap: Heap, mark: &MarkRef) -> Result<(), Memory>
    requires { IsCut mark.now }
    ensures { OnOk result (Writes W.holds writer.old writer.new (mark_html mark.now)) }
{
    match mark {
        MarkRef::Text(text) => push_cut(writer, text),
        MarkRef::Code(text) => push_code(writer, text),
        MarkRef::Soft => push_soft(writer),
        MarkRef::Hard => push_hard(writer),
        MarkRef::Raw(text) => writer.text(text),
        MarkRef::Reference(reference) => push_reference(writer, heap, reference.those),
        MarkRef::Start(span) => push_start(writer, heap, span),
        MarkRef::End(span) => push_end(writer, heap, span),
    }
}

/// Writes the one or two characters of a reference.
fn push_reference<W: Writer>(
    writer: &mut W,
    heap: Heap,
    those: (char, Option<char>),
) -> Result<(), Memory>
    ensures { OnOk result (Writes W.holds writer.old writer.new
        (characters (html_escape (both those)))) }
{
    let mut text = String::new(heap);
    push_characters(&mut text, those)?;
    writer.escaped(text.as_str())?;
    Ok(())
}

/// Writes a text of which each `&`, `<`, `>` and `"` is a text of its own, as it stands where it is longer than they are.
fn push_cut<W: Writer>(writer: &mut W, text: &str) -> Result<(), Memory>
    requires { is_cut (chars text.now) ≡ true }
    ensures { OnOk result (Writes W.holds writer.old writer.new
        (characters (html_escape (chars text.now)))) }
{
    if text.len() == 1 {
        return writer.escaped(text);
    }
    writer.text(text)
}

#[tactic(auto, unfolding(doc_rules::specs::Html::inline_html))]
fn push_soft<W: Writer>(writer: &mut W) -> Result<(), Memory>
    ensures { OnOk result (Writes W.holds writer.old writer.new (inline_html rules.SoftBreak)) }
{
    markup(writer, "\n")
}

#[tactic(auto, unfolding(doc_rules::specs::Html::inline_html))]
fn push_hard<W: Writer>(writer: &mut W) -> Result<(), Memory>
    ensures { OnOk result (Writes W.holds writer.old writer.new (inline_html rules.HardBreak)) }
{
    markup(writer, "<br />\n")
}

/// Writes a code span.
fn push_code<W: Writer>(writer: &mut W, text: &str) -> Result<(), Memory>
    ensures { OnOk result (Writes W.holds writer.old writer.new
        (inline_html (rules.Code (chars text.now)))) }
{
    markup(writer, "<code>")?;
    push_spaced(writer, text)?;
    markup(writer, "</code>")?;
    Ok(())
}

/// Writes the start of a span.
#[tactic(auto, unfolding(doc_rules::specs::Html::span_start, doc_inlines_marks::specs::Views::span_shown))]
fn push_start<W: Writer>(writer: &mut W, heap: Heap, span: &SpanRef) -> Result<(), Memory>
    ensures { OnOk result (Writes W.holds writer.old writer.new
        (span_start (span_shown span.now))) }
{
    match span {
        SpanRef::Emphasis => markup(writer, "<em>"),
        SpanRef::Strong => markup(writer, "<strong>"),
        SpanRef::Strike => markup(writer, "<del>"),
        SpanRef::Link(target) => writer.link(**target),
        SpanRef::Image(target) => push_image_start(writer, heap, **target),
    }
}

/// Notes an image, and writes what stands before its text.
fn push_image_start<W: Writer>(writer: &mut W, heap: Heap, target: TargetRef) -> Result<(), Memory>
    ensures { OnOk result (Writes W.holds writer.old writer.new
        (span_start (rules.Image (named target.entry)))) }
{
    let dest = target.dest(heap)?;
    writer.image(dest.get())?;
    let src = url(heap, dest.get())?;
    markup(writer, "<img src=\"")?;
    writer.text(src.get())?;
    markup(writer, "\" alt=\"")?;
    Ok(())
}

/// Writes the end of a span.
#[tactic(auto, unfolding(doc_rules::specs::Html::span_end, doc_inlines_marks::specs::Views::span_shown))]
fn push_end<W: Writer>(writer: &mut W, heap: Heap, span: &SpanRef) -> Result<(), Memory>
    ensures { OnOk result (Writes W.holds writer.old writer.new
        (characters (span_end (span_shown span.now)))) }
{
    match span {
        SpanRef::Emphasis => markup(writer, "</em>"),
        SpanRef::Strong => markup(writer, "</strong>"),
        SpanRef::Strike => markup(writer, "</del>"),
        SpanRef::Link(_) => markup(writer, "</a>"),
        SpanRef::Image(target) => push_image_end(writer, heap, **target),
    }
}

/// Writes what stands behind the text of an image.
fn push_image_end<W: Writer>(writer: &mut W, heap: Heap, target: TargetRef) -> Result<(), Memory>
    ensures { OnOk result (Writes W.holds writer.old writer.new
        (characters (span_end (rules.Image (named target.entry))))) }
{
    markup(writer, "\"")?;
    let title = target.title(heap)?;
    push_title(writer, &title)?;
    markup(writer, " />")?;
    Ok(())
}

/// Writes the attribute of a title.
fn push_title<W: Writer>(writer: &mut W, title: &Option<Text>) -> Result<(), Memory>
    ensures { OnOk result (Writes W.holds writer.old writer.new
        (characters (title_attribute (option_map chars title.now)))) }
{
    let Some(title) = title else {
        return Ok(());
    };
    markup(writer, " title=\"")?;
    writer.escaped(title.get())?;
    markup(writer, "\"")?;
    Ok(())
}
