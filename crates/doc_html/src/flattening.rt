//! The tags of trees of blocks.
ghost use Rattle.std.specs.Prelude.{◌≡◌, ◌∷◌, List, chars, option_map, IfOk, OnOk};
ghost use Rattle.doc_rules.specs.Forests.{none, ◌▹◌, node};
ghost use Rattle.doc_rules.specs.Blocks.{Blocks, TableBlock};
ghost use Rattle.doc_lines.specs.RestSteps.{rest_of};
ghost use Rattle.doc_blocks_starts.specs.Tables.{lines_in, source_of};
ghost use Rattle.doc_blocks_starts.specs.Tags.{container_shown, leaf_shown, tags_of, tags_shown};
ghost use Rattle.doc_blocks_starts.specs.OpenTags.{Entry, open_tags};
ghost use Rattle.doc_blocks.specs.Views.{behind, blocks_shown, forest};

use doc_blocks::Block;
use doc_blocks_starts::table_lines::TableLines;
use doc_blocks_starts::tag::{ContainerBlock, LeafBlock, Tag};
use doc_blocks_starts::texts::Texts;
use doc_page_parts::failure::Memory;
use doc_page_parts::heap::{Heap, Vec};
use doc_page_parts::text::Text;

/// The tags of blocks. The lines of tables stand in `texts`.
pub(crate) fn tags_of<'d>(
    heap: Heap,
    texts: &'d Texts,
    blocks: &'d [Block],
) -> Result<Vec<Tag<'d>>, Memory>
    ensures { IfOk result (λ tags. tags_shown tags.items ≡ tags_of (blocks_shown blocks.now)) }
{
    let mut tags: Vec<Tag<'d>> = Vec::new(heap);
    push_tags(&mut tags, texts, blocks)?;
    Ok(tags)
}

/// Puts the tags of blocks behind these.
#[cycle(blocks)]
fn push_tags<'d>(
    tags: &mut Vec<Tag<'d>>,
    texts: &'d Texts,
    blocks: &'d [Block],
) -> Result<(), Memory>
    ensures { (outer : List Entry) (before : Blocks)
        → tags_shown tags.old.items ≡ open_tags outer before →
        OnOk result (tags_shown tags.new.items ≡ open_tags outer (forest blocks.now before)) }
{
    for block in blocks {
        push_block(tags, texts, block)?;
    }
    Ok(())
}

/// Puts the tags of a block behind these.
#[cycle(blocks)]
fn push_block<'d>(tags: &mut Vec<Tag<'d>>, texts: &'d Texts, block: &'d Block) -> Result<(), Memory>
    ensures { (outer : List Entry) (before : Blocks)
        → tags_shown tags.old.items ≡ open_tags outer before →
        OnOk result (tags_shown tags.new.items ≡ open_tags outer (behind block.now before)) }
{
    match block {
        Block::Para(text) => push_leaf(tags, LeafBlock::Para(text.get())),
        Block::Heading { level, text } => push_leaf(
            tags,
            LeafBlock::Heading {
                level: *level,
                text: text.get(),
            },
        ),
        Block::Code(text) => push_leaf(tags, LeafBlock::Code(text.get())),
        Block::Fence { info, text } => push_leaf(
            tags,
            LeafBlock::Fence {
                info: info.get(),
                text: text.get(),
            },
        ),
        Block::Html(text) => push_leaf(tags, LeafBlock::Html(text.get())),
        Block::Break => push_leaf(tags, LeafBlock::Break),
        Block::Table {
            header,
            delimiters,
            rows,
        } => push_table(tags, texts, header, delimiters, rows),
        Block::Task { done, text } => push_leaf(
            tags,
            LeafBlock::Task {
                done: *done,
                text: text.get(),
            },
        ),
        Block::Quote(inside) => push_container(tags, texts, ContainerBlock::Quote, inside),
        Block::List {
            start,
            tight,
            items,
        } => push_container(
            tags,
            texts,
            ContainerBlock::List {
                start: *start,
                tight: *tight,
            },
            items,
        ),
        Block::Item(inside) => push_container(tags, texts, ContainerBlock::Item, inside),
    }
}

/// Puts the tag of the table of these lines behind these.
fn push_table<'d>(
    tags: &mut Vec<Tag<'d>>,
    texts: &'d Texts,
    header: &'d Text,
    delimiters: &'d Text,
    rows: &'d Option<Text>,
) -> Result<(), Memory>
    ensures { (outer : List Entry) (before : Blocks)
        → tags_shown tags.old.items ≡ open_tags outer before →
        OnOk result (tags_shown tags.new.items
        ≡ open_tags outer (before ▹ TableBlock (source_of (chars header.now) (chars delimiters.now)
        (lines_in (option_map chars rows.now))))) }
{
    let lines = texts.keep_lines(TableLines {
        header: header.get(),
        delimiters: delimiters.get(),
        rows: rows_of(rows),
    })?;
    push_leaf(tags, LeafBlock::Table(lines))
}

/// The lines behind a delimiter row, if there are any.
fn rows_of(rows: &Option<Text>) -> Option<&str>
    ensures { rest_of result ≡ option_map chars rows.now }
{
    match rows {
        Some(rows) => Some(rows.get()),
        None => None,
    }
}

/// Puts the tags of a container block behind these.
#[cycle(blocks)]
fn push_container<'d>(
    tags: &mut Vec<Tag<'d>>,
    texts: &'d Texts,
    container: ContainerBlock,
    inside: &'d [Block],
) -> Result<(), Memory>
    ensures { (outer : List Entry) (before : Blocks)
        → tags_shown tags.old.items ≡ open_tags outer before →
        OnOk result (tags_shown tags.new.items
        ≡ open_tags outer (node before (container_shown container) (blocks_shown inside.now))) }
{
    push_start(tags, container)?;
    push_tags(tags, texts, inside)?;
    push_end(tags, container)?;
    Ok(())
}

/// Puts the tag of a leaf block behind these.
fn push_leaf<'d>(tags: &mut Vec<Tag<'d>>, leaf: LeafBlock<'d>) -> Result<(), Memory>
    ensures { (outer : List Entry) (before : Blocks)
        → tags_shown tags.old.items ≡ open_tags outer before →
        OnOk result (tags_shown tags.new.items
        ≡ open_tags outer (before ▹ leaf_shown leaf.entry)) }
{
    tags.push(Tag::Leaf(leaf))?;
    Ok(())
}

/// Puts the start of a container block behind these.
fn push_start(tags: &mut Vec<Tag>, container: ContainerBlock) -> Result<(), Memory>
    ensures { (outer : List Entry) (before : Blocks)
        → tags_shown tags.old.items ≡ open_tags outer before →
        OnOk result (tags_shown tags.new.items
        ≡ open_tags ((container_shown container, before) ∷ outer) none) }
{
    tags.push(Tag::Start(container))?;
    Ok(())
}

/// Puts the end of a container block behind these.
fn push_end(tags: &mut Vec<Tag>, container: ContainerBlock) -> Result<(), Memory>
    ensures { (outer : List Entry) (before inside : Blocks)
        → tags_shown tags.old.items
        ≡ open_tags ((container_shown container, before) ∷ outer) inside →
        OnOk result (tags_shown tags.new.items
        ≡ open_tags outer (node before (container_shown container) inside)) }
{
    tags.push(Tag::End(container))?;
    Ok(())
}
