//! The open containers of a document that is read line by line, with the tags of all levels in a row.
//!
//! A *level* is what stands at one depth: its finished blocks, behind them perhaps a list that the next item may go on with, and whether a
//! blank line stands between two of the blocks (`gap`). There is one level more than open containers: `outer` has each container with the
//! level that it stands in, and `inner` is the one inside the last. The tags of all levels lie in one row, `tags`, in the order of the
//! text:
//!
//!     tags of the outermost level, start of its open list, tags of its items | start of the container in it, tags of the next level, ..
//!
//! So what closes puts its end there: an open list (`finish_list`), a container (`leave`). Whether a list is tight is known at its end
//! alone, so its start, which stands at `place`, is put once more then. `blank` says that a blank line stands behind the last block of the
//! innermost level: the next block there makes a gap of it, the next item of the list makes the list loose. An item that closes leaves it
//! to the level round it, a quote that closes clears it.
//!
//! That the tags are those of the open containers (`IsSound`) is asked and ensured by each call that changes them. A call that answers
//! `Memory` ensures nothing, and may have put tags already.
ghost use Rattle.std.specs.Prelude.{◌≡◌, ◌+◌, ◌<◌, ◌≤◌, ℕ, false, None, OnOk, IfOk, IsTrue, vec_len};
ghost use Rattle.doc_blocks_starts.specs.Items.{kind_of};
ghost use Rattle.doc_rules.specs.Blocks.{ListItem, list_start};
ghost use Rattle.doc_blocks_leaves.specs.Paths.{finished};
ghost use Rattle.doc_blocks_leaves.specs.Views.{with_block, with_closed};
ghost use Rattle.doc_blocks_starts.specs.Tags as tags;
ghost use Rattle.doc_blocks.specs.StackSteps.{empty_stack, with_inner_blocks, block_begun, item_begun, container_opened, stack_loosened, IsNotOf, ClosesLast};
ghost use Rattle.doc_blocks.specs.PathSteps.{gone_on_at, closed_to, GoesDown, MatchesAt};
ghost use Rattle.doc_lines.specs.Cursors.{left_of};
ghost use Rattle.doc_blocks_starts.specs.Lines.{inside_of};
ghost use Rattle.doc_blocks.specs.Containers.{container_shown, block_of};
ghost use Rattle.doc_blocks.specs.LevelSteps.{stack_of, list_of, Suits, IsSound, Leaves};

use crate::container::Container;
use doc_blocks_leaves::closed::Closed;
use doc_blocks_starts::item::ListKind;
use doc_blocks_starts::tag::{ContainerBlock, LeafBlock, Tag};
use doc_lines::cursor::Cursor;
use doc_page_parts::failure::Memory;
use doc_page_parts::heap::{Heap, Vec};
use std::mem;

/// A list that the next item may go on with. Its first tag stands at `place`.
#[derive(Drop)]
pub(crate) struct OpenList {
    pub(crate) kind: ListKind,
    pub(crate) start: u32,
    pub(crate) tight: bool,
    pub(crate) place: usize,
}

/// A level of open containers.
#[derive(Drop)]
pub(crate) struct Level {
    pub(crate) list: Option<OpenList>,
    pub(crate) gap: bool,
}

/// An open container and the level that it stands in.
#[derive(Drop)]
pub(crate) struct Open {
    pub(crate) level: Level,
    pub(crate) container: Container,
}

/// A container that was left, and whether a blank line stands between two of its blocks.
#[derive(Drop)]
struct Left {
    container: Container,
    gap: bool,
}

/// The open containers, the outermost first, the level inside them, whether a blank line stands behind the last block there, and the
/// tags so far.
#[derive(Drop)]
pub(crate) struct Levels<'t> {
    outer: Vec<Open>,
    inner: Level,
    blank: bool,
    tags: Vec<Tag<'t>>,
}

impl<'t> Levels<'t> {
    pub(crate) fn new(heap: Heap) -> Levels<'t>
        ensures stack { stack_of result ≡ empty_stack }
        ensures sound { IsSound result }
    {
        Levels {
            outer: Vec::new(heap),
            inner: Level {
                list: None,
                gap: false,
            },
            blank: false,
            tags: Vec::new(heap),
        }
    }

    /// The list that is open at the innermost level becomes a block.
    fn finish_list(&mut self) -> Result<(), Memory>
        requires { IsSound self.old }
        ensures stack { OnOk result (stack_of self.new
            ≡ with_inner_blocks (stack_of self.old) (finished (stack_of self.old).inner)) }
        ensures sound { OnOk result (IsSound self.new) }
        ensures bare { OnOk result (self.new.inner.list ≡ None) }
        ensures outer { OnOk result (self.new.outer ≡ self.old.outer) }
    {
        let list = match self.inner.list.take() {
            Some(list) => list,
            None => return Ok(()),
        };
        let block = list.block(list.tight);
        self.tags[list.place] = Tag::Start(block);
        self.tags.push(Tag::End(block))?;
        Ok(())
    }

    /// A block comes behind the blocks of the innermost level, whose list closes in any case.
    #[tactic(auto, unfolding(doc_blocks_leaves::specs::Views::with_block))]
    pub(crate) fn put(&mut self, leaf: Option<LeafBlock<'t>>) -> Result<(), Memory>
        requires { IsSound self.old }
        ensures stack { OnOk result (stack_of self.new
            ≡ with_inner_blocks (stack_of self.old)
            (with_block leaf.entry (finished (stack_of self.old).inner))) }
        ensures sound { OnOk result (IsSound self.new) }
        ensures outer { OnOk result (self.new.outer ≡ self.old.outer) }
    {
        self.finish_list()?;
        if let Some(leaf) = leaf {
            self.tags.push(Tag::Leaf(leaf))?;
        }
        Ok(())
    }

    /// The blocks of a leaf that closed come behind those of the innermost level, whose list closes in any case.
    pub(crate) fn put_closed(&mut self, closed: Closed<'t>) -> Result<(), Memory>
        requires { IsSound self.old }
        ensures stack { OnOk result (stack_of self.new
            ≡ with_inner_blocks (stack_of self.old)
            (with_closed closed.entry (finished (stack_of self.old).inner))) }
        ensures sound { OnOk result (IsSound self.new) }
        ensures outer { OnOk result (self.new.outer ≡ self.old.outer) }
    {
        self.put(closed.block)?;
        let Some(lines) = closed.table else {
            return Ok(());
        };
        self.put(Some(LeafBlock::Table(lines)))?;
        Ok(())
    }

    /// A block begins at the innermost level.
    pub(crate) fn begin_block(&mut self) -> Result<(), Memory>
        requires { IsSound self.old }
        ensures stack { OnOk result (stack_of self.new ≡ block_begun (stack_of self.old)) }
        ensures sound { OnOk result (IsSound self.new) }
        ensures bare { OnOk result (self.new.inner.list ≡ None) }
        ensures outer { OnOk result (self.new.outer ≡ self.old.outer) }
    {
        self.finish_list()?;
        self.inner.gap |= self.blank;
        self.blank = false;
        Ok(())
    }

    /// An item begins at the innermost level.
    pub(crate) fn begin_item(&mut self, kind: ListKind, start: u32) -> Result<(), Memory>
        requires { IsSound self.old }
        ensures stack { OnOk result (stack_of self.new
            ≡ item_begun (stack_of self.old) (kind_of kind) start) }
        ensures listed { OnOk result (Suits ListItem self.new.inner.list) }
        ensures sound { OnOk result (IsSound self.new) }
        ensures outer { OnOk result (self.new.outer ≡ self.old.outer) }
    {
        if self.goes_on_with(kind) {
            return Ok(());
        }
        self.begin_block()?;
        let list = OpenList {
            kind,
            start,
            tight: true,
            place: self.tags.len(),
        };
        self.tags.push(Tag::Start(list.block(true)))?;
        self.inner.list = Some(list);
        Ok(())
    }

    /// Whether an item of this kind goes on with the list that is open at the innermost level: then a blank line before it makes the
    /// list loose.
    fn goes_on_with(&mut self, kind: ListKind) -> bool
        requires { IsSound self.old }
        ensures yes { IsTrue result → (start : ℕ)
            → stack_of self.new ≡ item_begun (stack_of self.old) (kind_of kind) start }
        ensures listed { IsTrue result → Suits ListItem self.new.inner.list }
        ensures no { result ≡ false → (self.new ≡ self.old)
            × IsNotOf (kind_of kind) (stack_of self.old).inner.list }
        ensures sound { IsSound self.new }
        ensures outer { self.new.outer ≡ self.old.outer }
    {
        let Some(list) = &mut self.inner.list else {
            return false;
        };
        if !list.kind.is_same(kind) {
            return false;
        }
        list.tight &= !self.blank;
        self.blank = false;
        true
    }

    /// A container opens at the innermost level: an item in the list that is open there, a quote where none is.
    pub(crate) fn open(&mut self, container: Container) -> Result<(), Memory>
        requires sound { IsSound self.old }
        requires suits { Suits (block_of container) self.old.inner.list }
        ensures stack { OnOk result (stack_of self.new
            ≡ container_opened (stack_of self.old) (container_shown container)) }
        ensures sound { OnOk result (IsSound self.new) }
        ensures depth { OnOk result (vec_len self.new.outer ≡ vec_len self.old.outer + 1) }
    {
        self.tags.push(Tag::Start(container.block()))?;
        let fresh = Level {
            list: None,
            gap: false,
        };
        let level = mem::replace(&mut self.inner, fresh);
        self.outer.push(Open { level, container })?;
        self.blank = false;
        Ok(())
    }

    /// The innermost container closes.
    pub(crate) fn close_last(&mut self) -> Result<(), Memory>
        requires sound { IsSound self.old }
        requires open { 0 < vec_len self.old.outer }
        ensures closes { OnOk result (ClosesLast (stack_of self.old) (stack_of self.new)) }
        ensures sound { OnOk result (IsSound self.new) }
        ensures depth { OnOk result (vec_len self.new.outer + 1 ≡ vec_len self.old.outer) }
    {
        let left = self.leave()?;
        match left.container {
            Container::Quote => self.set_blank(false),
            Container::Item { .. } => self.loosen(left.gap),
        }
        Ok(())
    }

    /// Takes the innermost container off, and puts its end tag.
    fn leave(&mut self) -> Result<Left, Memory>
        requires sound { IsSound self.old }
        requires open { 0 < vec_len self.old.outer }
        ensures left { IfOk result (Leaves (stack_of self.old) (stack_of self.new)) }
        ensures sound { OnOk result (IsSound self.new) }
        ensures depth { OnOk result (vec_len self.new.outer + 1 ≡ vec_len self.old.outer) }
    {
        self.finish_list()?;
        let Open { level, container } = self.outer.pop().unwrap();
        let inside = mem::replace(&mut self.inner, level);
        self.tags.push(Tag::End(container.block()))?;
        Ok(Left {
            container,
            gap: inside.gap,
        })
    }

    /// A blank line between two blocks of an item makes the list round it loose.
    fn loosen(&mut self, gap: bool)
        requires { IsSound self.old }
        ensures stack { stack_of self.new ≡ stack_loosened (stack_of self.old) gap }
        ensures sound { IsSound self.new }
        ensures outer { self.new.outer ≡ self.old.outer }
    {
        if let Some(list) = &mut self.inner.list {
            list.tight &= !gap;
        }
    }

    /// How many containers are open.
    pub(crate) fn depth(&self) -> usize
        ensures { result ≡ vec_len self.now.outer }
    {
        self.outer.len()
    }

    /// Says whether a blank line stands behind the last block of the innermost level.
    pub(crate) fn set_blank(&mut self, blank: bool)
        requires { IsSound self.old }
        ensures stack { stack_of self.new ≡ record (stack_of self.old) { blank = blank } }
        ensures sound { IsSound self.new }
        ensures outer { self.new.outer ≡ self.old.outer }
    {
        self.blank = blank;
    }

    /// All open containers but the first so many close.
    pub(crate) fn close_to(&mut self, depth: usize) -> Result<(), Memory>
        requires sound { IsSound self.old }
        requires within { depth ≤ vec_len self.old.outer }
        ensures stack { OnOk result (stack_of self.new ≡ closed_to depth (stack_of self.old)) }
        ensures sound { OnOk result (IsSound self.new) }
        ensures depth { OnOk result (vec_len self.new.outer ≡ depth) }
    {
        'containers: while depth < self.outer.len() {
            self.close_last()?;
        }
        Ok(())
    }

    /// A line goes down the open containers that it goes on with, and is inside them then. The answer is how many there are.
    pub(crate) fn go_down<'a>(&mut self, line: &mut Cursor<'a>) -> usize
        requires { IsSound self.old }
        ensures goes { GoesDown (stack_of self.old) (left_of line.old) (stack_of self.new) result
            (left_of line.new) }
        ensures sound { IsSound self.new }
        ensures depth { result ≤ vec_len self.new.outer }
    {
        let mut depth = 0;
        'containers: while depth < self.outer.len() {
            if !self.matched_at(depth, line) {
                return depth;
            }
            self.go_on_at(depth);
            depth += 1;
        }
        depth
    }

    /// Whether a line goes on with the container at this place. Where it does, it is inside then.
    fn matched_at<'a>(&self, place: usize, line: &mut Cursor<'a>) -> bool
        requires { place < vec_len self.now.outer }
        ensures inside { MatchesAt place (stack_of self.now).outer (left_of line.old)
            (inside_of result line.new) }
        ensures stays { result ≡ false → line.new ≡ line.old }
    {
        self.outer[place].container.matched(line)
    }

    /// All tags, where no container is open. The list of the innermost level closes.
    pub(crate) fn into_tags(mut self) -> Result<Vec<Tag<'t>>, Memory>
        requires sound { IsSound self }
        requires closed { vec_len self.outer ≡ 0 }
        ensures { IfOk result (λ found. tags.tags_shown found.items
            ≡ tags.tags_of (finished (stack_of self.entry).inner)) }
    {
        self.finish_list()?;
        Ok(self.tags)
    }

    /// A line goes on with the container at this place.
    fn go_on_at(&mut self, place: usize)
        requires sound { IsSound self.old }
        requires within { place < vec_len self.old.outer }
        ensures stack { stack_of self.new ≡ record
            (stack_of self.old) { outer = gone_on_at place (stack_of self.old).outer } }
        ensures sound { IsSound self.new }
        ensures depth { vec_len self.new.outer ≡ vec_len self.old.outer }
    {
        let container = self.outer[place].container;
        self.outer[place].container = container.gone_on();
    }
}

impl OpenList {
    /// The list as a block.
    #[tactic(auto, unfolding(doc_blocks_starts::specs::Tags::container_shown))]
    fn block(&self, tight: bool) -> ContainerBlock
        ensures { tags.container_shown result ≡ list_of self.now tight }
    {
        ContainerBlock::List {
            start: start_of(self.kind, self.start),
            tight,
        }
    }
}

/// The number that a list has, where it has one.
#[tactic(auto, unfolding(doc_rules::specs::Blocks::list_start))]
fn start_of(kind: ListKind, start: u32) -> Option<u32>
    ensures { result ≡ list_start (kind_of kind) start }
{
    match kind {
        ListKind::Bullet(_) => None,
        ListKind::Ordered(_) => Some(start),
    }
}
