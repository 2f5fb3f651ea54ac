//! Tasks (GitHub Flavored Markdown 0.29, section 5.3): paragraphs right behind the start of their items that begin with a marker.
ghost use Rattle.std.specs.Prelude.{◌≡◌, chars};
ghost use Rattle.doc_lines.specs.RestSteps.{rest_of};
ghost use Rattle.doc_rules.specs.Tasks.{behind_mark, mark_of, task_in};
ghost use Rattle.doc_rules.specs.Blocks.{first_leaf, task_of};
ghost use Rattle.doc_blocks_starts.specs.Tags.{leaf_shown, tag_shown, tags_shown};
ghost use Rattle.doc_blocks.specs.TaskSteps.{bracketed, marked_of, pair_of, starts_item, tag_read, tasks_among};

use doc_blocks_starts::tag::{ContainerBlock, LeafBlock, Tag};
use doc_lines::entities::Entities;
use doc_lines::scan::character::{is, next_char, one};
use doc_lines::scan::run::many;
use doc_lines::scan::white_space::is_space_or_tab;
use doc_page_parts::heap::Vec;

/// A text without the marker of a task at its front, and whether the marker says that the task is done.
#[derive(Clone, Copy)]
struct Marked<'a> {
    done: bool,
    text: &'a str,
}

/// The tags with the tasks among them, where tasks are read.
pub(crate) fn with_tasks<'t>(tags: Vec<Tag<'t>>, entities: &Entities) -> Vec<Tag<'t>>
    ensures { tags_shown result.items ≡ tasks_among entities.now (tags_shown tags.entry.items) }
{
    if !entities.tasks() {
        return tags;
    }
    let mut tags = tags;
    let mut first = false;
    let mut place = 0;
    'tags: while place < tags.len() {
        let tag = tags[place];
        tags[place] = tag_read(first, tag);
        first = starts_item(tag);
        place += 1;
    }
    tags
}

#[tactic(auto, unfolding(doc_blocks_starts::specs::Tags::tag_shown, doc_blocks_starts::specs::Tags::container_shown))]
fn starts_item(tag: Tag) -> bool
    ensures { result ≡ starts_item (tag_shown tag.entry) }
{
    matches!(tag, Tag::Start(ContainerBlock::Item))
}

/// A tag behind the start of an item or not: a paragraph there may be a task.
#[tactic(auto, unfolding(doc_blocks_starts::specs::Tags::tag_shown))]
fn tag_read(first: bool, tag: Tag) -> Tag
    ensures { tag_shown result ≡ tag_read first (tag_shown tag.entry) }
{
    if !first {
        return tag;
    }
    match tag {
        Tag::Leaf(leaf) => Tag::Leaf(first_leaf(leaf)),
        Tag::Start(container) => Tag::Start(container),
        Tag::End(container) => Tag::End(container),
    }
}

/// A leaf at the front of an item: a paragraph may be a task.
#[tactic(auto, unfolding(doc_blocks_starts::specs::Tags::leaf_shown, doc_rules::specs::Blocks::first_leaf))]
fn first_leaf(leaf: LeafBlock) -> LeafBlock
    ensures { leaf_shown result ≡ first_leaf (leaf_shown leaf.entry) }
{
    let LeafBlock::Para(text) = leaf else {
        return leaf;
    };
    paragraph_or_task(text)
}

#[tactic(auto, unfolding(doc_blocks_starts::specs::Tags::leaf_shown, doc_rules::specs::Blocks::task_of))]
fn paragraph_or_task(text: &str) -> LeafBlock<'_>
    ensures { leaf_shown result ≡ task_of (chars text.now) (task_in (chars text.now)) }
{
    match take_marker(text) {
        Some(marked) => LeafBlock::Task {
            done: marked.done,
            text: marked.text,
        },
        None => LeafBlock::Para(text),
    }
}

/// Takes the marker of a task off a text: `[ ]`, `[x]` or `[X]`, then a space or a tab, then more text on the same line.
fn take_marker(text: &str) -> Option<Marked<'_>>
    ensures { marked_of result ≡ task_in (chars text.now) }
{
    let (mark, rest) = bracketed(text)?;
    let done = mark_of(mark)?;
    let text = behind_mark(rest)?;
    Some(Marked { done, text })
}

/// The character in the brackets at the front, and the text behind them and a space or a tab.
fn bracketed(text: &str) -> Option<(char, &str)>
    ensures { pair_of result ≡ bracketed (chars text.now) }
{
    let inside = is(text, '[')?;
    let (mark, rest) = next_char(inside)?;
    let behind = is(rest, ']')?;
    let text = one(behind, is_space_or_tab)?;
    Some((mark, text))
}

#[tactic(auto, unfolding(doc_rules::specs::Tasks::mark_of))]
fn mark_of(c: char) -> Option<bool>
    ensures { result ≡ mark_of c }
{
    if c == ' ' {
        return Some(false);
    }
    if c == 'x' || c == 'X' {
        Some(true)
    } else {
        None
    }
}

/// The text behind spaces and tabs, where there is some on the same line.
fn behind_mark(text: &str) -> Option<&str>
    ensures { rest_of result ≡ behind_mark (chars text.now) }
{
    let rest = many(text, is_space_or_tab);
    let (c, _) = next_char(rest)?;
    if c == '\n' { None } else { Some(rest) }
}
