//! A document that is read line by line: the path of open blocks, and what a line does with it (the crate's head has the plan).
//!
//! `depth` is how many containers a line went down, from the outermost, and `line` what is left of it inside them. Whatever begins there
//! closes all that is open further in, and a line that begins nothing closes nothing by itself: that is what makes a line lazy. A *lazy
//! line* is one that begins nothing and isn't blank, while a paragraph is open further in than the line went down. It is a line of that
//! paragraph, and the containers round it stay open. `put_text` decides it, where it asks whether any paragraph is open and not whether
//! that stands at `depth`. `met` tells both apart for those that care: an underline is never lazy, and an item that may not interrupt a
//! paragraph of its own containers does begin where the paragraph is open further in.
ghost use Rattle.std.specs.Prelude.{◌≡◌, ◌+◌, ◌-◌, ◌&&◌, ℕ, true, false, None, OnOk, IfOk, chars, drop, vec_len};
ghost use Rattle.std.specs.Option.{is_some};
ghost use Rattle.std.specs.FinMap as finite;
ghost use Rattle.doc_rules.specs.ContainerStarts.{quote_start, item_start};
ghost use Rattle.doc_rules.specs.Trees as rules;
ghost use Rattle.doc_blocks_leaves.specs.Leaves.{NoLeaf, NotTaken, taken};
ghost use Rattle.doc_blocks_leaves.specs.OpenBlocks.{leaf_begun, leaf_step, text_put, start_step};
ghost use Rattle.doc_lines.specs.Cursors.{left_of};
ghost use Rattle.doc_blocks_starts.specs.Lines.{inside_of};
ghost use Rattle.doc_blocks_starts.specs.Items.{item_taken, kind_of};
ghost use Rattle.doc_blocks_leaves.specs.OpenLeaves.{holds_table};
ghost use Rattle.doc_blocks_leaves.specs.Starts.{situation_of, start_shown, leaf_lines};
ghost use Rattle.doc_blocks.specs.PathSteps.{paragraph_in};
ghost use Rattle.doc_blocks.specs.StackSteps.{empty_stack};
ghost use Rattle.doc_blocks.specs.StateSteps.{below, met, shown, reached, leaf_done, all_closed, quote_opened, item_opened, lines_opened, item_met, StepsTo, after_line};
ghost use Rattle.doc_blocks.specs.BuilderSteps.{state_of, situation_at, IsReady, IsBegun, IsInParagraph, IsTaken};
ghost use Rattle.doc_blocks.specs.LevelSteps.{IsSound};

use crate::container::Container;
use crate::levels::Levels;
use crate::plain_line::begins_nothing;
use doc_blocks_leaves::leaf::{LineTaken, OpenLeaf};
use doc_blocks_leaves::line::is_indented;
use doc_blocks_leaves::start::{LeafStart, NewLeaf, Situation, goes_on_with, leaf_start};
use doc_blocks_starts::indentation::is_blank_line;
use doc_blocks_starts::item::{Item, take_item};
use doc_blocks_starts::quote::take_quote;
use doc_blocks_starts::texts::Texts;
use doc_lines::cursor::Cursor;
use doc_lines::entities::Entities;
use doc_page_parts::failure::Memory;
use doc_page_parts::heap::Heap;
use doc_refs::RefMap;

/// At most so many quotes and items are open at once.
const MOST: usize = 100;

/// The open containers, the open leaf, and what labels name so far.
#[derive(Drop)]
pub(crate) struct Builder<'t> {
    pub(crate) levels: Levels<'t>,
    pub(crate) leaf: OpenLeaf<'t>,
    pub(crate) refs: RefMap,
}

impl<'t> Builder<'t> {
    pub(crate) fn new(heap: Heap, texts: &'t Texts) -> Builder<'t>
        ensures state { state_of result
            ≡ record { stack = empty_stack; leaf = NoLeaf; refs = finite.empty } }
        ensures ready { IsReady result 0 }
    {
        Builder {
            levels: Levels::new(heap),
            leaf: OpenLeaf::new(heap, texts),
            refs: RefMap::new(heap),
        }
    }

    /// The open leaf closes.
    fn close_leaf(&mut self, heap: Heap, entities: &Entities) -> Result<(), Memory>
        requires { IsSound self.old.levels }
        ensures state { OnOk result (state_of self.new
            ≡ leaf_done entities.now (state_of self.old)) }
        ensures sound { OnOk result (IsSound self.new.levels) }
        ensures outer { OnOk result (self.new.levels.outer ≡ self.old.levels.outer) }
    {
        if !self.leaf.is_open() {
            return Ok(());
        }
        let blocks = self.leaf.close(heap, entities, &mut self.refs)?;
        self.levels.put_closed(blocks)?;
        Ok(())
    }

    /// All that is open inside the first so many containers closes.
    pub(crate) fn close_to(
        &mut self,
        heap: Heap,
        entities: &Entities,
        depth: usize,
    ) -> Result<(), Memory>
        requires { IsReady self.old depth }
        ensures state { OnOk result (state_of self.new
            ≡ all_closed entities.now depth (state_of self.old)) }
        ensures sound { OnOk result (IsSound self.new.levels) }
        ensures depth { OnOk result (vec_len self.new.levels.outer ≡ depth) }
    {
        self.close_leaf(heap, entities)?;
        self.levels.close_to(depth)?;
        Ok(())
    }

    /// Then a quote opens.
    fn begin_quote(&mut self, heap: Heap, entities: &Entities, depth: usize) -> Result<(), Memory>
        requires { IsReady self.old depth }
        ensures state { OnOk result (state_of self.new
            ≡ quote_opened entities.now depth (state_of self.old)) }
        ensures ready { OnOk result (IsReady self.new (depth + 1)) }
    {
        self.close_to(heap, entities, depth)?;
        self.levels.begin_block()?;
        self.levels.open(Container::Quote)?;
        Ok(())
    }

    /// Then an item opens.
    fn begin_item(
        &mut self,
        heap: Heap,
        entities: &Entities,
        depth: usize,
        item: Item,
        is_empty: bool,
    ) -> Result<(), Memory>
        requires { IsReady self.old depth }
        ensures state { OnOk result (state_of self.new
            ≡ item_opened entities.now depth (state_of self.old) (kind_of item.kind)
            item.start item.columns is_empty) }
        ensures ready { OnOk result (IsReady self.new (depth + 1)) }
    {
        self.close_to(heap, entities, depth)?;
        self.levels.begin_item(item.kind, item.start)?;
        self.levels.open(Container::Item {
            columns: item.columns,
            is_empty,
        })?;
        Ok(())
    }

    /// The paragraph that a line meets inside the first so many containers.
    fn met(&self, entities: &Entities, depth: usize) -> Situation<'_>
        requires { IsReady self.now depth }
        ensures { situation_of result ≡ met entities.now depth (state_of self.now) }
    {
        let text = match self.leaf.paragraph() {
            Some(text) => text,
            None => return Situation::NoParagraph,
        };
        let table = self.is_in_table(entities);
        if depth < self.levels.depth() {
            return situation_at(text, true, table);
        }
        situation_at(text, false, table)
    }

    /// Whether the open leaf is a paragraph with a table in it, where tables are read.
    fn is_in_table(&self, entities: &Entities) -> bool
        ensures { result ≡ (entities.now.tables && holds_table self.now.leaf) }
    {
        entities.tables() && self.leaf.holds_table()
    }

    /// A line begins this leaf.
    fn begin_leaf(
        &mut self,
        heap: Heap,
        entities: &Entities,
        depth: usize,
        line: &Cursor,
        start: LeafStart,
    ) -> Result<(), Memory>
        requires { IsReady self.old depth }
        ensures reached { OnOk result
            (reached depth (state_of self.old)
            (leaf_begun entities.now (below depth (state_of self.old))
            (start_shown (left_of line.now) start.entry)) ≡ shown (state_of self.new)) }
        ensures sound { OnOk result (IsSound self.new.levels) }
    {
        match start {
            LeafStart::New(leaf) => {
                self.begin_new(heap, entities, depth, line, leaf)?;
                Ok(())
            }
            LeafStart::Underline { level } => {
                self.underline(heap, entities, depth, level)?;
                Ok(())
            }
        }
    }

    fn begin_new(
        &mut self,
        heap: Heap,
        entities: &Entities,
        depth: usize,
        line: &Cursor,
        leaf: NewLeaf,
    ) -> Result<(), Memory>
        requires { IsReady self.old depth }
        ensures state { OnOk result (state_of self.new
            ≡ lines_opened entities.now depth (state_of self.old)
            (leaf_lines (left_of line.now) leaf.entry)) }
        ensures sound { OnOk result (IsSound self.new.levels) }
    {
        self.close_to(heap, entities, depth)?;
        self.levels.begin_block()?;
        let block = self.leaf.begin(heap, line, leaf, entities)?;
        self.levels.put(block)?;
        Ok(())
    }

    /// The open paragraph becomes a heading.
    fn underline(
        &mut self,
        heap: Heap,
        entities: &Entities,
        depth: usize,
        level: u8,
    ) -> Result<(), Memory>
        requires { IsReady self.old depth }
        ensures reached { OnOk result
            (reached depth (state_of self.old)
            (leaf_begun entities.now (below depth (state_of self.old)) (rules.Underline level))
            ≡ shown (state_of self.new)) }
        ensures sound { OnOk result (IsSound self.new.levels) }
    {
        if !self.is_at_paragraph(depth) {
            return Ok(());
        }
        let block = self.leaf.underline(heap, level, entities, &mut self.refs)?;
        self.levels.put(block)?;
        self.levels.set_blank(false);
        Ok(())
    }

    /// Whether a paragraph is open, with a table in it or not, and no container round it that the line didn't go down.
    fn is_at_paragraph(&self, depth: usize) -> bool
        requires { IsReady self.now depth }
        ensures { result ≡ is_some (paragraph_in (drop depth (state_of self.now).stack.outer)
            (state_of self.now).leaf) }
    {
        if depth < self.levels.depth() {
            return false;
        }
        self.leaf.paragraph().is_some()
    }

    fn is_in_paragraph(&self, entities: &Entities, depth: usize) -> bool
        requires { IsReady self.now depth }
        ensures { IsInParagraph (met entities.now depth (state_of self.now)) result }
    {
        matches!(self.met(entities, depth), Situation::InParagraph(_))
    }

    /// A line that begins nothing: a blank line, a line of the open paragraph, indented code, or a new paragraph.
    fn put_text(
        &mut self,
        heap: Heap,
        entities: &Entities,
        depth: usize,
        line: &Cursor,
    ) -> Result<(), Memory>
        requires { IsReady self.old depth }
        ensures reached { OnOk result
            (reached depth (state_of self.old)
            (text_put entities.now (met entities.now depth (state_of self.old)) (left_of line.now)
            (below depth (state_of self.old))) ≡ shown (state_of self.new)) }
        ensures sound { OnOk result (IsSound self.new.levels) }
    {
        if is_blank_line(line) {
            self.close_to(heap, entities, depth)?;
            self.levels.set_blank(true);
            return Ok(());
        }
        // Also where the paragraph is open further in than the line went down: then the line is lazy.
        if goes_on_with(self.met(entities, depth), line) {
            self.leaf.continue_paragraph(line, entities.tables())?;
            return Ok(());
        }
        self.close_to(heap, entities, depth)?;
        self.levels.begin_block()?;
        if is_indented(line) {
            self.leaf.begin_code(line)?;
            return Ok(());
        }
        self.leaf.begin_paragraph(line, entities.tables())?;
        Ok(())
    }

    /// A line in front of which no more containers may begin, or that begins none: a leaf or text.
    fn put_leaf(
        &mut self,
        heap: Heap,
        entities: &Entities,
        depth: usize,
        line: &Cursor,
    ) -> Result<(), Memory>
        requires { IsReady self.old depth }
        ensures reached { OnOk result
            (reached depth (state_of self.old)
            (leaf_step entities.now (met entities.now depth (state_of self.old)) (left_of line.now)
            (below depth (state_of self.old))) ≡ shown (state_of self.new)) }
        ensures sound { OnOk result (IsSound self.new.levels) }
    {
        match leaf_start(heap, self.met(entities, depth), line, entities)? {
            Some(start) => {
                self.begin_leaf(heap, entities, depth, line, start)?;
                Ok(())
            }
            None => {
                self.put_text(heap, entities, depth, line)?;
                Ok(())
            }
        }
    }

    /// One step of what a line begins. Answers whether a container began; then the line is inside it.
    fn begin_one(
        &mut self,
        heap: Heap,
        entities: &Entities,
        depth: usize,
        line: &mut Cursor,
    ) -> Result<bool, Memory>
        requires { IsReady self.old depth }
        ensures steps { IfOk result (λ inside. (room : ℕ)
            → StepsTo entities.now room depth (state_of self.old) (left_of line.old)
            (state_of self.new) (inside_of inside line.new)) }
        ensures ready { IfOk result
            (λ inside. IsBegun self.new (depth + 1) (inside_of inside line.new)) }
    {
        if begins_nothing(line) {
            self.put_text(heap, entities, depth, line)?;
            return Ok(false);
        }
        if take_quote(line) {
            self.begin_quote(heap, entities, depth)?;
            return Ok(true);
        }
        if let Some(start) = leaf_start(heap, self.met(entities, depth), line, entities)? {
            self.begin_leaf(heap, entities, depth, line, start)?;
            return Ok(false);
        }
        let inside = self.begin_item_or_text(heap, entities, depth, line)?;
        Ok(inside)
    }

    /// The same for a line that begins an item, or nothing.
    fn begin_item_or_text(
        &mut self,
        heap: Heap,
        entities: &Entities,
        depth: usize,
        line: &mut Cursor,
    ) -> Result<bool, Memory>
        requires ready { IsReady self.old depth }
        requires quote { quote_start (left_of line.old) ≡ None }
        requires leaf { rules.leaf_begins entities.now (met entities.now depth (state_of self.old))
            (left_of line.old) ≡ None }
        ensures steps { IfOk result (λ inside. (room : ℕ)
            → StepsTo entities.now room depth (state_of self.old) (left_of line.old)
            (state_of self.new) (inside_of inside line.new)) }
        ensures ready { IfOk result
            (λ inside. IsBegun self.new (depth + 1) (inside_of inside line.new)) }
    {
        let mut inside = line.copy();
        let Some(item) = self.take_item(entities, depth, &mut inside) else {
            self.put_text(heap, entities, depth, line)?;
            return Ok(false);
        };
        *line = inside;
        if is_blank_line(line) {
            self.begin_item(heap, entities, depth, item, true)?;
            return Ok(false);
        }
        self.begin_item(heap, entities, depth, item, false)?;
        Ok(true)
    }

    /// Takes the marker of the item that a line may begin: some may not interrupt a paragraph of their own containers. Where no item
    /// begins, the line is left anywhere.
    fn take_item(&self, entities: &Entities, depth: usize, line: &mut Cursor) -> Option<Item>
        requires { IsReady self.now depth }
        ensures { item_taken result line.new ≡ item_met (met entities.now depth (state_of self.now))
            (item_start (left_of line.old)) }
    {
        let item = take_item(line)?;
        if !self.is_in_paragraph(entities, depth) {
            return Some(item);
        }
        if !item.may_interrupt(line) {
            return None;
        }
        Some(item)
    }

    /// What a line begins inside the first so many containers, which it goes on with.
    fn begin(
        &mut self,
        heap: Heap,
        entities: &Entities,
        from: usize,
        line: &mut Cursor,
    ) -> Result<(), Memory>
        requires { IsReady self.old from }
        ensures reached { OnOk result
            (reached from (state_of self.old)
            (start_step (100 - from) entities.now (met entities.now from (state_of self.old))
            (left_of line.old) (below from (state_of self.old))) ≡ shown (state_of self.new)) }
        ensures sound { OnOk result (IsSound self.new.levels) }
    {
        let mut depth = from;
        'containers: while depth < MOST {
            if !self.begin_one(heap, entities, depth, line)? {
                return Ok(());
            }
            depth += 1;
        }
        self.put_leaf(heap, entities, depth, line)?;
        Ok(())
    }

    /// A line, without its ending. The cursor goes down to what it begins.
    pub(crate) fn add<'a>(
        &mut self,
        heap: Heap,
        entities: &Entities,
        line: &mut Cursor<'a>,
    ) -> Result<(), Memory>
        requires { IsSound self.old.levels }
        ensures line { OnOk result (after_line entities.now (state_of self.old) (left_of line.old)
            ≡ shown (state_of self.new)) }
        ensures sound { OnOk result (IsSound self.new.levels) }
    {
        let depth = self.levels.go_down(line);
        if depth < self.levels.depth() {
            self.begin(heap, entities, depth, line)?;
            return Ok(());
        }
        if self.is_taken(heap, entities, line)? {
            return Ok(());
        }
        self.begin(heap, entities, depth, line)?;
        Ok(())
    }

    /// Offers a line to the open leaf, and answers whether it took it.
    fn is_taken(&mut self, heap: Heap, entities: &Entities, line: &Cursor) -> Result<bool, Memory>
        requires { IsSound self.old.levels }
        ensures yes { IfOk result (λ b. b ≡ true
            → IsTaken entities.now (state_of self.old) (left_of line.now) (state_of self.new)) }
        ensures no { IfOk result (λ b. b ≡ false
            → (state_of self.new ≡ state_of self.old)
            × (taken (left_of line.now) (state_of self.old).leaf ≡ NotTaken)) }
        ensures sound { OnOk result (IsSound self.new.levels) }
        ensures outer { OnOk result (self.new.levels.outer ≡ self.old.levels.outer) }
    {
        match self.leaf.take(line)? {
            LineTaken::No => Ok(false),
            LineTaken::GoesOn { blank } => {
                self.levels.set_blank(blank);
                Ok(true)
            }
            LineTaken::Closes { blank } => {
                self.close_leaf(heap, entities)?;
                self.levels.set_blank(blank);
                Ok(true)
            }
        }
    }
}

/// The paragraph that a line meets: one of this text, to which the line went down or not, and with a table in it or not.
fn situation_at(text: &str, lazy: bool, table: bool) -> Situation<'_>
    ensures { situation_of result ≡ situation_at (chars text.now) lazy table }
{
    match (lazy, table) {
        (true, true) => Situation::NoParagraph,
        (true, false) => Situation::LazyParagraph,
        (false, true) => Situation::InTable,
        (false, false) => Situation::InParagraph(text),
    }
}
