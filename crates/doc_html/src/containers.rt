//! Container blocks as HTML (CommonMark 0.31.2, section 5).
ghost use Rattle.std.specs.Prelude.{◌≡◌, ◌++◌, Bool, codes, decimal, OnOk};
ghost use Rattle.doc_rules.specs.Blocks.{BlockQuote, ListBlock, ListItem};
ghost use Rattle.doc_rules.specs.Html.{characters, list_tag, list_end};
ghost use Rattle.doc_blocks_starts.specs.Tags.{container_shown};
ghost use Rattle.doc_html.specs.ProgressSteps.{Goes, Writes};
ghost use Rattle.doc_html.specs.TellingSteps.{start_told, end_told};

use crate::leaves::push_decimal;
use crate::writer::{Writer, markup};
use doc_blocks_starts::tag::ContainerBlock;
use doc_page_parts::failure::Memory;
use doc_page_parts::heap::Heap;

/// Writes the start of a container block.
#[tactic(auto, unfolding(doc_blocks_starts::specs::Tags::container_shown))]
pub(crate) fn begin<W: Writer>(
    writer: &mut W,
    heap: Heap,
    container: ContainerBlock,
) -> Result<(), Memory>
    ensures { OnOk result (Goes W.holds writer.old writer.new
        (start_told (container_shown container))) }
{
    match container {
        ContainerBlock::Quote => begin_quote(writer),
        ContainerBlock::List { start, tight: _ } => begin_list(writer, heap, start),
        ContainerBlock::Item => begin_item(writer),
    }
}

/// Writes the end of a container block.
#[tactic(auto, unfolding(doc_blocks_starts::specs::Tags::container_shown))]
pub(crate) fn end<W: Writer>(writer: &mut W, container: ContainerBlock) -> Result<(), Memory>
    ensures { OnOk result (Goes W.holds writer.old writer.new
        (end_told (container_shown container))) }
{
    match container {
        ContainerBlock::Quote => end_quote(writer),
        ContainerBlock::List { start, tight: _ } => end_list(writer, start),
        ContainerBlock::Item => end_item(writer),
    }
}

fn begin_quote<W: Writer>(writer: &mut W) -> Result<(), Memory>
    ensures { OnOk result (Goes W.holds writer.old writer.new (start_told BlockQuote)) }
{
    writer.new_line()?;
    markup(writer, "<blockquote>\n")?;
    Ok(())
}

fn end_quote<W: Writer>(writer: &mut W) -> Result<(), Memory>
    ensures { OnOk result (Goes W.holds writer.old writer.new (end_told BlockQuote)) }
{
    writer.new_line()?;
    markup(writer, "</blockquote>\n")?;
    Ok(())
}

fn begin_list<W: Writer>(writer: &mut W, heap: Heap, start: Option<u32>) -> Result<(), Memory>
    ensures { (tight : Bool)
        → OnOk result (Goes W.holds writer.old writer.new (start_told (ListBlock start tight))) }
{
    writer.new_line()?;
    push_list_tag(writer, heap, start)?;
    Ok(())
}

/// Writes the opening tag of a list. The first number stands in it where it isn't 1 (section 5.3).
#[tactic(auto, unfolding(doc_rules::specs::Html::list_tag))]
fn push_list_tag<W: Writer>(writer: &mut W, heap: Heap, start: Option<u32>) -> Result<(), Memory>
    ensures { OnOk result (Writes W.holds writer.old writer.new (characters (list_tag start))) }
{
    match start {
        None => markup(writer, "<ul>\n"),
        Some(1) => markup(writer, "<ol>\n"),
        Some(start) => push_start(writer, heap, start),
    }
}

/// Writes the opening tag of a list with its first number.
fn push_start<W: Writer>(writer: &mut W, heap: Heap, start: u32) -> Result<(), Memory>
    ensures { OnOk result (Writes W.holds writer.old writer.new
        (characters (codes "<ol start=\"" ++ decimal start ++ codes "\">\n"))) }
{
    markup(writer, "<ol start=\"")?;
    push_decimal(writer, heap, start)?;
    markup(writer, "\">\n")?;
    Ok(())
}

fn end_list<W: Writer>(writer: &mut W, start: Option<u32>) -> Result<(), Memory>
    ensures { (tight : Bool)
        → OnOk result (Goes W.holds writer.old writer.new (end_told (ListBlock start tight))) }
{
    writer.new_line()?;
    push_list_end(writer, start)?;
    Ok(())
}

#[tactic(auto, unfolding(doc_rules::specs::Html::list_end))]
fn push_list_end<W: Writer>(writer: &mut W, start: Option<u32>) -> Result<(), Memory>
    ensures { OnOk result (Writes W.holds writer.old writer.new (characters (list_end start))) }
{
    match start {
        None => markup(writer, "</ul>\n"),
        Some(_) => markup(writer, "</ol>\n"),
    }
}

fn begin_item<W: Writer>(writer: &mut W) -> Result<(), Memory>
    ensures { OnOk result (Goes W.holds writer.old writer.new (start_told ListItem)) }
{
    markup(writer, "<li>")?;
    Ok(())
}

fn end_item<W: Writer>(writer: &mut W) -> Result<(), Memory>
    ensures { OnOk result (Goes W.holds writer.old writer.new (end_told ListItem)) }
{
    markup(writer, "</li>\n")?;
    Ok(())
}
