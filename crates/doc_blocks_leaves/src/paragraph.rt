//! A paragraph's text and the definitions at its front (CommonMark 0.31.2, sections 4.7 and 4.8).
ghost use Rattle.std.specs.Prelude.{◌≡◌, ◌==◌, [], false, None, length, chars, MatchOption, IfOk, OnOk};
ghost use Rattle.doc_rules.specs.Characters.{Text};
ghost use Rattle.doc_rules.specs.Rules.{Rules};
ghost use Rattle.doc_rules.specs.Definitions.{definitions_of};
ghost use Rattle.doc_rules.specs.Blocks.{Leaf, Paragraph, Blocks, with_text, table_of};
ghost use Rattle.doc_lines.specs.RestSteps.{rest_of};
ghost use Rattle.doc_refs_parts.specs.Targets.{targets_of, joined};
ghost use Rattle.doc_blocks_starts.specs.Tags as tags;
ghost use Rattle.doc_blocks_leaves.specs.Leaves.{OpenParagraph, with_open, open_references};
ghost use Rattle.doc_blocks_leaves.specs.OpenLeaves.{with_leaf_of};
ghost use Rattle.doc_blocks_leaves.specs.TableTexts.{table_shown, IsTableOf};
ghost use Rattle.doc_blocks_leaves.specs.Views.{with_block, with_closed};

use crate::closed::Closed;
use crate::strip::strip_end;
use doc_blocks_starts::table_lines::TableLines;
use doc_blocks_starts::tag::LeafBlock;
use doc_blocks_starts::texts::Texts;
use doc_lines::entities::Entities;
use doc_lines::scan::character::next_char;
use doc_page_parts::failure::Memory;
use doc_page_parts::heap::Heap;
use doc_refs::{RefMap, take_definitions};
use doc_tables::table::{TableText, first_table};

/// The blocks of a paragraph's text: the paragraph that definitions leave, if they leave any, and behind it the table in the text, where
/// tables are read (GitHub Flavored Markdown 0.29, section 4.10). Their texts stand in `texts`. What the definitions name joins `refs`.
pub fn paragraph_blocks<'t>(
    heap: Heap,
    texts: &'t Texts,
    text: &str,
    entities: &Entities,
    refs: &mut RefMap,
) -> Result<Closed<'t>, Memory>
    ensures blocks { IfOk result (λ blocks. (before : Blocks)
        → with_closed blocks before ≡ with_open entities.now (OpenParagraph (chars text.now)) before) }
    ensures refs { OnOk result (refs.new ≡ joined refs.old
        (targets_of (open_references entities.now (OpenParagraph (chars text.now))))) }
{
    let Some(found) = table_of(text, entities) else {
        let block = paragraph(heap, texts, text, entities, refs)?;
        return Ok(Closed::of(block));
    };
    let block = paragraph(heap, texts, found.before, entities, refs)?;
    let table = kept_table(texts, found)?;
    Ok(Closed {
        block,
        table: Some(table),
    })
}

/// The table in a text, where tables are read.
fn table_of<'a>(text: &'a str, entities: &Entities) -> Option<TableText<'a>>
    ensures { MatchOption result (table_of entities.now (chars text.now) ≡ None)
        (λ found. IsTableOf entities.now (chars text.now) found) }
{
    if !entities.tables() {
        return None;
    }
    first_table(text)
}

/// A table, with its texts in `texts`.
fn kept_table<'t>(texts: &'t Texts, found: TableText) -> Result<&'t TableLines<'t>, Memory>
    ensures { IfOk result (λ lines. tags.table_shown lines.now ≡ table_shown found.entry) }
{
    let header = texts.keep(found.header)?;
    let delimiters = texts.keep(found.delimiters)?;
    let rows = kept_rows(texts, found.rows)?;
    let lines = texts.keep_lines(TableLines {
        header,
        delimiters,
        rows,
    })?;
    Ok(lines)
}

fn kept_rows<'t>(texts: &'t Texts, rows: Option<&str>) -> Result<Option<&'t str>, Memory>
    ensures { IfOk result (λ kept. rest_of kept ≡ rest_of rows.entry) }
{
    match rows {
        Some(rows) => Ok(Some(texts.keep(rows)?)),
        None => Ok(None),
    }
}

/// The paragraph that definitions leave of a text, if they leave any.
fn paragraph<'t>(
    heap: Heap,
    texts: &'t Texts,
    text: &str,
    entities: &Entities,
    refs: &mut RefMap,
) -> Result<Option<LeafBlock<'t>>, Memory>
    ensures block { IfOk result (λ block. (before : Blocks) → with_block block before
        ≡ with_text Paragraph (definitions_of entities.now (chars text.now)).1 before) }
    ensures refs { OnOk result (refs.new ≡ joined refs.old
        (targets_of (definitions_of entities.now (chars text.now)).0)) }
{
    let text = paragraph_text(heap, texts, text, entities, refs)?;
    match text {
        Some(text) => Ok(Some(LeafBlock::Para(text))),
        None => Ok(None),
    }
}

/// The text that definitions leave of a paragraph, if they leave any, without spaces and tabs at its end. It stands in `texts`. What
/// the definitions name joins `refs`.
#[tactic(auto, unfolding(doc_rules::specs::Blocks::with_text))]
pub fn paragraph_text<'t>(
    heap: Heap,
    texts: &'t Texts,
    text: &str,
    entities: &Entities,
    refs: &mut RefMap,
) -> Result<Option<&'t str>, Memory>
    ensures text { IfOk result (λ rest. (leaf : Text → Leaf) (before : Blocks) →
        with_leaf_of leaf (rest_of rest) before
        ≡ with_text leaf (definitions_of entities.now (chars text.now)).1 before) }
    ensures refs { OnOk result (refs.new ≡ joined refs.old
        (targets_of (definitions_of entities.now (chars text.now)).0)) }
{
    let rest = without_definitions(heap, text, entities, refs)?;
    match next_char(rest) {
        Some(_) => Ok(Some(texts.keep(strip_end(rest))?)),
        None => Ok(None),
    }
}

/// The text behind the definitions at its front, which join `refs`.
fn without_definitions<'a>(
    heap: Heap,
    text: &'a str,
    entities: &Entities,
    refs: &mut RefMap,
) -> Result<&'a str, Memory>
    ensures text { IfOk result (λ rest. chars rest.now
        ≡ (definitions_of entities.now (chars text.now)).1) }
    ensures refs { OnOk result (refs.new ≡ joined refs.old
        (targets_of (definitions_of entities.now (chars text.now)).0)) }
{
    if !may_define(text) {
        return Ok(text);
    }
    let (found, taken) = take_definitions(heap, text, entities)?;
    refs.join(found)?;
    Ok(&text[taken..])
}

/// Whether definitions are all of a paragraph's text.
pub fn has_only_definitions(heap: Heap, text: &str, entities: &Entities) -> Result<bool, Memory>
    ensures { IfOk result (λ answer. answer
        ≡ (length (definitions_of entities.now (chars text.now)).1 == 0)) }
{
    if !may_define(text) {
        return Ok(text.is_empty());
    }
    let (_, taken) = take_definitions(heap, text, entities)?;
    Ok(text[taken..].is_empty())
}

/// Whether the first character is one with which definitions can begin.
fn may_define(text: &str) -> bool
    ensures { result ≡ false → (rules : Rules)
        → definitions_of rules (chars text.now) ≡ ([], chars text.now) }
{
    match next_char(text) {
        Some((c, _)) => c == '[' || c == ' ',
        None => false,
    }
}
