//! Calls of `doc_blocks_starts`.

use crate::texts::of_refs;
use crate::texts::tools::Tools;
use doc_blocks_starts::fence::{Fence, opening_fence};
use doc_blocks_starts::heading::{atx_heading, underline_level};
use doc_blocks_starts::html::{HtmlKind, html_start};
use doc_blocks_starts::indentation::{after_indent, indent_up_to, is_blank_line, marker_text};
use doc_blocks_starts::item::{ListKind, take_item};
use doc_blocks_starts::quote::take_quote;
use doc_blocks_starts::thematic_break::is_thematic_break;
use doc_lines::cursor::Cursor;
use doc_page_parts::failure::Memory;
use doc_page_parts::heap::String;
use trial::answer::{char_and_text, number_and_text, only_char, shown, shown_if, word_and_text};

/// What stands behind a marker of a block quote: its columns of indentation, 9 at most, and the text behind them.
type Quoted<'a> = (usize, &'a str);

/// An item's kind, number and columns, and of what stands of it on its line the columns of indentation, 9 at most, and the text behind
/// them.
type Item<'a> = (ListKind, u32, usize, usize, &'a str);

/// What is printed for a call of this name.
pub fn called(tools: Tools<'_>, name: &str, given: &str) -> Result<String, Memory> {
    let heap = tools.heap;
    match name {
        "is_thematic_break" => shown(heap, is_thematic_break(given)),
        "atx_heading" => shown(heap, heading(given)),
        "underline_level" => shown(heap, underline_level(given)),
        "opening_fence" => shown_if(heap, fence(given)),
        "is_closed_by" => shown_if(heap, is_closed_by(given)),
        "html_start" => shown(heap, html_start(given)),
        "html_kind" => shown_if(heap, html_kind(given)),
        "html_ends_with" => shown_if(heap, html_ends_with(given)),
        "indent_up_to" => shown_if(heap, indent(given)),
        "is_same" => shown_if(heap, is_same(given)),
        _ => in_line(tools, name, &Cursor::new(given), given),
    }
}

/// What is printed for a call of this name that is made on what is left of a line.
fn in_line(tools: Tools<'_>, name: &str, line: &Cursor, given: &str) -> Result<String, Memory> {
    let heap = tools.heap;
    match name {
        "after_indent" => shown(heap, after_indent(line)),
        "is_blank_line" => shown(heap, is_blank_line(line)),
        "marker_text" => shown(heap, marker_text(line)),
        "quote" => shown(heap, quoted(line)),
        "quote_in_quote" => shown(heap, quoted_twice(line)),
        "item" => shown(heap, item(line)),
        "item_in_quote" => shown(heap, item_in_quote(line)),
        "item_in_two_quotes" => shown(heap, item_in_two_quotes(line)),
        "item_may_interrupt" => shown(heap, may_interrupt(line)),
        _ => of_refs::called(tools, name, given),
    }
}

fn heading(text: &str) -> Option<(u8, &str)> {
    let heading = atx_heading(text)?;
    Some((heading.level, heading.text))
}

/// `INDENT TEXT`: character, length, indentation and info string.
fn fence(given: &str) -> Option<Option<(char, usize, usize, &str)>> {
    let (indent, text) = number_and_text(given)?;
    let Some(start) = opening_fence(indent, text) else {
        return Some(None);
    };
    let fence = start.fence;
    let character = fence.character;
    Some(Some((character, fence.length, fence.indent, start.info)))
}

/// `C LENGTH TEXT`.
fn is_closed_by(given: &str) -> Option<bool> {
    let (character, rest) = char_and_text(given)?;
    let (length, text) = number_and_text(rest)?;
    let fence = Fence {
        character,
        length,
        indent: 0,
    };
    Some(fence.is_closed_by(text))
}

fn kind_of(name: &str) -> Option<HtmlKind> {
    Some(match name {
        "RawText" => HtmlKind::RawText,
        "Comment" => HtmlKind::Comment,
        "Instruction" => HtmlKind::Instruction,
        "Declaration" => HtmlKind::Declaration,
        "Cdata" => HtmlKind::Cdata,
        "Element" => HtmlKind::Element,
        "AnyTag" => HtmlKind::AnyTag,
        _ => return None,
    })
}

/// `KIND`: whether it may interrupt a paragraph, and whether it ends before a blank line.
fn html_kind(given: &str) -> Option<(bool, bool)> {
    let kind = kind_of(given)?;
    Some((kind.may_interrupt_paragraph(), kind.ends_before_blank()))
}

/// `KIND LINE`.
fn html_ends_with(given: &str) -> Option<bool> {
    let (kind, line) = word_and_text(given)?;
    Some(kind_of(kind)?.ends_with(line))
}

/// `MOST LINE`.
fn indent(given: &str) -> Option<usize> {
    let (most, line) = number_and_text(given)?;
    Some(indent_up_to(&Cursor::new(line), most))
}

fn inside<'a>(line: &Cursor<'a>) -> Option<Cursor<'a>> {
    let mut inside = line.copy();
    if take_quote(&mut inside) {
        Some(inside)
    } else {
        None
    }
}

fn quoted<'a>(line: &Cursor<'a>) -> Option<Quoted<'a>> {
    let behind = inside(line)?;
    Some((indent_up_to(&behind, 9), after_indent(&behind)))
}

fn quoted_twice<'a>(line: &Cursor<'a>) -> Option<Quoted<'a>> {
    quoted(&inside(line)?)
}

fn item<'a>(line: &Cursor<'a>) -> Option<Item<'a>> {
    let mut first = line.copy();
    let item = take_item(&mut first)?;
    let columns = indent_up_to(&first, 9);
    Some((
        item.kind,
        item.start,
        item.columns,
        columns,
        after_indent(&first),
    ))
}

fn item_in_quote<'a>(line: &Cursor<'a>) -> Option<Item<'a>> {
    item(&inside(line)?)
}

fn item_in_two_quotes<'a>(line: &Cursor<'a>) -> Option<Item<'a>> {
    item_in_quote(&inside(line)?)
}

fn may_interrupt(line: &Cursor) -> Option<bool> {
    let mut first = line.copy();
    let item = take_item(&mut first)?;
    Some(item.may_interrupt(&first))
}

/// `KIND C KIND C`.
fn is_same(given: &str) -> Option<bool> {
    let (kind, rest) = word_and_text(given)?;
    let (c, rest) = char_and_text(rest)?;
    let (other_kind, other) = word_and_text(rest)?;
    Some(list_kind(kind, c)?.is_same(list_kind(other_kind, only_char(other)?)?))
}

fn list_kind(kind: &str, c: char) -> Option<ListKind> {
    match kind {
        "Bullet" => Some(ListKind::Bullet(c)),
        "Ordered" => Some(ListKind::Ordered(c)),
        _ => None,
    }
}
