//! Trees of blocks, made of tags.
ghost use Rattle.std.specs.Prelude.{◌≡◌, [], chars, option_map, IfOk, OnOk};
ghost use Rattle.doc_lines.specs.RestSteps.{rest_of};
ghost use Rattle.doc_rules.specs.Blocks.{Blocks};
ghost use Rattle.doc_rules.specs.Forests.{◌▹◌, node};
ghost use Rattle.doc_blocks_starts.specs.Tags.{End, leaf_shown, container_shown, tag_shown, tags_shown};
ghost use Rattle.doc_blocks_starts.specs.OpenTags.{Open, read, read_one};
ghost use Rattle.doc_blocks.specs.Views.{behind, blocks_shown};
ghost use Rattle.doc_blocks.specs.TreeSteps.{Shows};

use crate::block::Block;
use doc_blocks_starts::tag::{ContainerBlock, LeafBlock, Tag};
use doc_page_parts::failure::Memory;
use doc_page_parts::heap::{Heap, Vec};
use doc_page_parts::text::Text;
use std::mem;

/// The tree of tags, with texts of its own. An end without its start is passed over; where a container is open at the end, the blocks
/// inside the innermost one are answered.
pub(crate) fn tree_of(heap: Heap, tags: &[Tag]) -> Result<Vec<Block>, Memory>
    ensures { IfOk result (λ blocks. blocks_shown blocks.items ≡ (read (tags_shown tags.now)).1) }
{
    let mut tree = Tree::new(heap);
    for tag in tags {
        tree.add(heap, *tag)?;
    }
    Ok(tree.blocks)
}

/// The blocks before each open container, the outermost first, and those inside the innermost one.
#[derive(Drop)]
pub(crate) struct Tree {
    before: Vec<Vec<Block>>,
    blocks: Vec<Block>,
}

impl Tree {
    fn new(heap: Heap) -> Tree
        ensures { Shows result (read []) }
    {
        Tree {
            before: Vec::new(heap),
            blocks: Vec::new(heap),
        }
    }

    /// One more tag.
    fn add(&mut self, heap: Heap, tag: Tag) -> Result<(), Memory>
        ensures { (state : Open) → Shows self.old state
            → OnOk result (Shows self.new (read_one (tag_shown tag.entry) state)) }
    {
        match tag {
            Tag::Leaf(leaf) => {
                self.blocks.push(leaf_of(heap, leaf)?)?;
                Ok(())
            }
            Tag::Start(_) => {
                let blocks = mem::replace(&mut self.blocks, Vec::new(heap));
                self.before.push(blocks)?;
                Ok(())
            }
            Tag::End(container) => self.end(container),
        }
    }

    /// The innermost container ends.
    fn end(&mut self, container: ContainerBlock) -> Result<(), Memory>
        ensures { (state : Open) → Shows self.old state
            → OnOk result (Shows self.new (read_one (End (container_shown container)) state)) }
    {
        let Some(before) = self.before.pop() else {
            return Ok(());
        };
        let inside = mem::replace(&mut self.blocks, before);
        self.blocks.push(container_of(container, inside))?;
        Ok(())
    }
}

/// A leaf block with texts of its own.
fn leaf_of(heap: Heap, leaf: LeafBlock) -> Result<Block, Memory>
    ensures { IfOk result (λ block. (before : Blocks)
        → behind block before ≡ before ▹ leaf_shown leaf.entry) }
{
    match leaf {
        LeafBlock::Para(text) => Ok(Block::Para(Text::copy_of(heap, text)?)),
        LeafBlock::Heading { level, text } => Ok(Block::Heading {
            level,
            text: Text::copy_of(heap, text)?,
        }),
        LeafBlock::Code(text) => Ok(Block::Code(Text::copy_of(heap, text)?)),
        LeafBlock::Fence { info, text } => Ok(Block::Fence {
            info: Text::copy_of(heap, info)?,
            text: Text::copy_of(heap, text)?,
        }),
        LeafBlock::Html(text) => Ok(Block::Html(Text::copy_of(heap, text)?)),
        LeafBlock::Break => Ok(Block::Break),
        LeafBlock::Table(lines) => Ok(Block::Table {
            header: Text::copy_of(heap, lines.header)?,
            delimiters: Text::copy_of(heap, lines.delimiters)?,
            rows: rows_of(heap, lines.rows)?,
        }),
        LeafBlock::Task { done, text } => Ok(Block::Task {
            done,
            text: Text::copy_of(heap, text)?,
        }),
    }
}

/// The lines of the rows of a table, if there are any.
fn rows_of(heap: Heap, rows: Option<&str>) -> Result<Option<Text>, Memory>
    ensures { IfOk result (λ copy. option_map chars copy ≡ rest_of rows.entry) }
{
    match rows {
        Some(rows) => Ok(Some(Text::copy_of(heap, rows)?)),
        None => Ok(None),
    }
}

/// A container block round these.
fn container_of(container: ContainerBlock, inside: Vec<Block>) -> Block
    ensures { (before : Blocks) → behind result before
        ≡ node before (container_shown container) (blocks_shown inside.items) }
{
    match container {
        ContainerBlock::Quote => Block::Quote(inside),
        ContainerBlock::List { start, tight } => Block::List {
            start,
            tight,
            items: inside,
        },
        ContainerBlock::Item => Block::Item(inside),
    }
}
