//! The tags of a text: each of its lines in turn is added to a builder, and at the end all that is still open closes.
ghost use Rattle.std.specs.Prelude.{◌≡◌, [], false, chars, map, IfOk, OnOk};
ghost use Rattle.doc_rules.specs.Blocks.{document_of};
ghost use Rattle.doc_rules.specs.Columns.{cells_of};
ghost use Rattle.doc_rules.specs.Lines.{secure_char};
ghost use Rattle.doc_refs_parts.specs.Targets.{targets_of};
ghost use Rattle.doc_blocks_starts.specs.Tags.{tags_of, tags_shown};
ghost use Rattle.doc_blocks.specs.StateSteps.{shown, after_line, document_left};
ghost use Rattle.doc_blocks.specs.BuilderSteps.{state_of};
ghost use Rattle.doc_blocks.specs.LevelSteps.{IsSound};

use crate::builder::Builder;
use crate::content::{FirstLine, first_line, secure_text};
use crate::tasks::with_tasks;
use doc_blocks_starts::tag::Tag;
use doc_blocks_starts::texts::Texts;
use doc_lines::cursor::Cursor;
use doc_lines::entities::Entities;
use doc_page_parts::failure::Memory;
use doc_page_parts::heap::{Heap, Vec};
use doc_refs::RefMap;

/// The blocks of a document as tags, and what its labels name.
#[derive(Drop)]
pub struct Tagged<'t> {
    pub tags: Vec<Tag<'t>>,
    pub refs: RefMap,
}

/// The blocks of a text (CommonMark 0.31.2, sections 4 and 5), those of [`blocks`](crate::blocks), as tags whose texts stand in `texts`.
pub fn tags<'t>(
    heap: Heap,
    texts: &'t Texts,
    text: &str,
    entities: &Entities,
) -> Result<Tagged<'t>, Memory>
    ensures tags { IfOk result (λ tagged. tags_shown tagged.tags.items
        ≡ tags_of (document_of entities.now (chars text.now)).blocks) }
    ensures refs { IfOk result (λ tagged. tagged.refs
        ≡ targets_of (document_of entities.now (chars text.now)).refs) }
{
    let mut builder = Builder::new(heap, texts);
    let mut rest = text;
    'lines: while !rest.is_empty() {
        let first = first_line(rest);
        add_line(&mut builder, heap, entities, first)?;
        rest = first.rest;
    }
    let tagged = finish(builder, heap, entities)?;
    Ok(tagged)
}

/// A line.
fn add_line(
    builder: &mut Builder,
    heap: Heap,
    entities: &Entities,
    first: FirstLine,
) -> Result<(), Memory>
    requires sound { IsSound builder.old.levels }
    requires plain { first.holds_null ≡ false
        → map secure_char (chars first.line.now) ≡ chars first.line.now }
    ensures line { OnOk result (after_line entities.now (state_of builder.old)
        (cells_of (map secure_char (chars first.entry.line.now))) ≡ shown (state_of builder.new)) }
    ensures sound { OnOk result (IsSound builder.new.levels) }
{
    if !first.holds_null {
        builder.add(heap, entities, &mut Cursor::new(first.line))?;
        return Ok(());
    }
    let content = secure_text(heap, first.line)?;
    builder.add(heap, entities, &mut Cursor::new(content.as_str()))?;
    Ok(())
}

/// All that is still open closes.
fn finish<'t>(builder: Builder<'t>, heap: Heap, entities: &Entities) -> Result<Tagged<'t>, Memory>
    requires { IsSound builder.levels }
    ensures tags { IfOk result (λ tagged. tags_shown tagged.tags.items
        ≡ tags_of (document_left entities.now [] (shown (state_of builder.entry))).0) }
    ensures refs { IfOk result (λ tagged. tagged.refs
        ≡ (document_left entities.now [] (shown (state_of builder.entry))).1) }
{
    let mut builder = builder;
    builder.close_to(heap, entities, 0)?;
    let Builder {
        levels,
        leaf: _,
        refs,
    } = builder;
    Ok(Tagged {
        tags: with_tasks(levels.into_tags()?, entities),
        refs,
    })
}
