//! The leaf that a line begins (CommonMark 0.31.2, sections 4.1 to 4.6).
ghost use Rattle.std.specs.Prelude.{◌≡◌, ◌≤◌, chars, IfOk};
ghost use Rattle.doc_rules.specs.Columns.{indent};
ghost use Rattle.doc_rules.specs.Trees.{has_no_paragraph, leaf_begins, text_begins, atx_begins, fence_begins, html_begins, setext_begins, break_begins};
ghost use Rattle.doc_lines.specs.Cursors.{left_of};
ghost use Rattle.doc_blocks_leaves.specs.OpenBlocks.{goes_on_with};
ghost use Rattle.doc_blocks_leaves.specs.Starts.{situation_of, start_of, or_else};

use crate::line::is_indented;
use crate::paragraph::has_only_definitions;
use doc_blocks_starts::fence::{FenceStart, opening_fence};
use doc_blocks_starts::heading::{Heading, atx_heading, underline_level};
use doc_blocks_starts::html::{HtmlKind, html_start};
use doc_blocks_starts::indentation::{indent_up_to, marker_text};
use doc_blocks_starts::thematic_break::is_thematic_break;
use doc_lines::cursor::Cursor;
use doc_lines::entities::Entities;
use doc_lines::scan::character::next_char;
use doc_page_parts::failure::Memory;
use doc_page_parts::heap::Heap;

/// The paragraph that a line could go on with.
#[derive(Clone, Copy)]
pub enum Situation<'a> {
    NoParagraph,
    /// The line is in all containers of the paragraph, whose text this is.
    InParagraph(&'a str),
    /// The line could go on with it only lazily.
    LazyParagraph,
    /// The line is in all containers of a paragraph with a table in it, which is none to the line but that it may be a row.
    InTable,
}

/// A leaf that a line begins.
#[derive(Clone, Copy)]
pub enum NewLeaf<'a> {
    Heading(Heading<'a>),
    Fenced(FenceStart<'a>),
    /// An HTML block, which goes on behind this line or ends with it.
    Html { kind: HtmlKind, goes_on: bool },
    Break,
}

/// What a line begins.
#[derive(Clone, Copy)]
pub enum LeafStart<'a> {
    New(NewLeaf<'a>),
    /// The open paragraph becomes a heading of this level.
    Underline { level: u8 },
}

/// The leaf that a line begins, if any. The paragraph's definitions are read where the line may be an underline, which takes memory.
#[tactic(auto, unfolding(doc_rules::specs::Trees::leaf_begins))]
pub fn leaf_start<'a>(
    heap: Heap,
    situation: Situation,
    line: &Cursor<'a>,
    entities: &Entities,
) -> Result<Option<LeafStart<'a>>, Memory>
    ensures { IfOk result (λ start. start_of (left_of line.now) start
        ≡ leaf_begins entities.now (situation_of situation.entry) (left_of line.now)) }
{
    match marker_text(line) {
        Some(text) => text_start(heap, situation, line, text, entities),
        None => Ok(None),
    }
}

/// The same for what stands behind the line's indentation. Its first character says which starts there may be.
fn text_start<'a>(
    heap: Heap,
    situation: Situation,
    line: &Cursor<'a>,
    text: &'a str,
    entities: &Entities,
) -> Result<Option<LeafStart<'a>>, Memory>
    requires { indent (left_of line.now) ≤ 3 }
    ensures { IfOk result (λ start. start_of (left_of line.now) start
        ≡ text_begins entities.now (situation_of situation.entry) (left_of line.now)
        (chars text.now)) }
{
    let Some((first, _)) = next_char(text) else {
        return Ok(None);
    };
    match first {
        '#' => Ok(heading_start(line, text)),
        '`' | '~' => Ok(fence_start(line, text)),
        '<' => Ok(html_block_start(situation, line, text)),
        '=' => underline_start(heap, situation, line, text, entities),
        '-' => hyphens_start(heap, situation, line, text, entities),
        '*' | '_' | ' ' | '\t' => Ok(break_start(line, text)),
        _ => Ok(None),
    }
}

/// An ATX heading (section 4.2).
#[tactic(auto, unfolding(doc_rules::specs::Trees::atx_begins, crate::specs::Starts::start_shown, crate::specs::Starts::leaf_lines))]
fn heading_start<'a>(line: &Cursor, text: &'a str) -> Option<LeafStart<'a>>
    ensures { start_of (left_of line.now) result ≡ atx_begins (chars text.now) }
{
    Some(LeafStart::New(NewLeaf::Heading(atx_heading(text)?)))
}

/// A fence (section 4.5).
#[tactic(auto, unfolding(doc_rules::specs::Trees::fence_begins, crate::specs::Starts::start_shown, crate::specs::Starts::leaf_lines))]
fn fence_start<'a>(line: &Cursor, text: &'a str) -> Option<LeafStart<'a>>
    requires { indent (left_of line.now) ≤ 3 }
    ensures { start_of (left_of line.now) result
        ≡ fence_begins (left_of line.now) (chars text.now) }
{
    let start = opening_fence(indent_up_to(line, 3), text)?;
    Some(LeafStart::New(NewLeaf::Fenced(start)))
}

/// An HTML block (section 4.6). Kind 7 begins only where no paragraph could go on.
#[tactic(auto, unfolding(doc_rules::specs::Trees::html_begins, doc_rules::specs::Trees::has_no_paragraph, crate::specs::Starts::start_shown, crate::specs::Starts::leaf_lines))]
fn html_block_start<'a>(situation: Situation, line: &Cursor, text: &str) -> Option<LeafStart<'a>>
    ensures { start_of (left_of line.now) result
        ≡ html_begins (situation_of situation.entry) (left_of line.now) (chars text.now) }
{
    let kind = html_start(text)?;
    if !kind.may_interrupt_paragraph() && !has_no_paragraph(situation) {
        return None;
    }
    let goes_on = !kind.ends_with(text);
    Some(LeafStart::New(NewLeaf::Html { kind, goes_on }))
}

#[tactic(auto, unfolding(doc_rules::specs::Trees::has_no_paragraph))]
fn has_no_paragraph(situation: Situation) -> bool
    ensures { result ≡ has_no_paragraph (situation_of situation.entry) }
{
    matches!(situation, Situation::NoParagraph | Situation::InTable)
}

/// The underline of a setext heading (section 4.3). It is never lazy, and where only definitions stand above it, it is none.
#[tactic(auto, unfolding(doc_rules::specs::Trees::setext_begins, crate::specs::Starts::start_shown))]
fn underline_start<'a>(
    heap: Heap,
    situation: Situation,
    line: &Cursor,
    text: &str,
    entities: &Entities,
) -> Result<Option<LeafStart<'a>>, Memory>
    ensures { IfOk result (λ start. start_of (left_of line.now) start
        ≡ setext_begins entities.now (situation_of situation.entry) (chars text.now)) }
{
    let Situation::InParagraph(above) = situation else {
        return Ok(None);
    };
    let Some(level) = underline_level(text) else {
        return Ok(None);
    };
    if has_only_definitions(heap, above, entities)? {
        return Ok(None);
    }
    Ok(Some(LeafStart::Underline { level }))
}

/// A thematic break (section 4.1).
#[tactic(auto, unfolding(doc_rules::specs::Trees::break_begins, crate::specs::Starts::start_shown, crate::specs::Starts::leaf_lines))]
fn break_start<'a>(line: &Cursor, text: &str) -> Option<LeafStart<'a>>
    ensures { start_of (left_of line.now) result ≡ break_begins (chars text.now) }
{
    if is_thematic_break(text) {
        Some(LeafStart::New(NewLeaf::Break))
    } else {
        None
    }
}

/// An underline of hyphens, or else a thematic break of them.
fn hyphens_start<'a>(
    heap: Heap,
    situation: Situation,
    line: &Cursor,
    text: &str,
    entities: &Entities,
) -> Result<Option<LeafStart<'a>>, Memory>
    ensures { IfOk result (λ start. start_of (left_of line.now) start
        ≡ or_else (setext_begins entities.now (situation_of situation.entry) (chars text.now))
        (break_begins (chars text.now))) }
{
    let underline = underline_start(heap, situation, line, text, entities)?;
    match underline {
        Some(start) => Ok(Some(start)),
        None => Ok(break_start(line, text)),
    }
}

/// Whether the open paragraph goes on with a line that begins nothing and isn't blank. Behind a table such a line is a row, unless it is
/// indented as code.
#[tactic(auto, unfolding(crate::specs::OpenBlocks::goes_on_with))]
pub fn goes_on_with(situation: Situation, line: &Cursor) -> bool
    ensures { result ≡ goes_on_with (situation_of situation.entry) (left_of line.now) }
{
    match situation {
        Situation::NoParagraph => false,
        Situation::InTable => !is_indented(line),
        Situation::InParagraph(_) | Situation::LazyParagraph => true,
    }
}
