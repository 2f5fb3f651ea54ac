//! The open leaf of a document that is read line by line: the last block, where it may take the next line.
ghost use Rattle.std.specs.Prelude.{◌≡◌, [], ◌∷◌, ◌++◌, IfOk, IfSome, OnOk};
ghost use Rattle.doc_rules.specs.Columns.{text_of};
ghost use Rattle.doc_rules.specs.Rules.{Rules};
ghost use Rattle.doc_rules.specs.Tables.{has_table};
ghost use Rattle.doc_rules.specs.Trees.{HtmlLines, line_text};
ghost use Rattle.doc_rules.specs.Blocks.{Blocks};
ghost use Rattle.doc_blocks_leaves.specs.Leaves.{NoLeaf, OpenParagraph, OpenCode, open_of, code_with, taken, with_open, open_references};
ghost use Rattle.doc_lines.specs.Cursors.{left_of};
ghost use Rattle.doc_lines.specs.RestSteps.{rest_of};
ghost use Rattle.doc_refs_parts.specs.Targets.{targets_of, joined};
ghost use Rattle.doc_blocks_leaves.specs.OpenLeaves.{is_open, holds_table, paragraph_text, taken_shown, leaf_continued, underlined, with_underlined, underlined_references, with_begun};
ghost use Rattle.doc_blocks_leaves.specs.Starts.{leaf_lines};
ghost use Rattle.doc_blocks_leaves.specs.Views.{with_block, with_closed};
ghost use Rattle.doc_blocks_leaves.specs.declared.leaf.take.LineTaken.TheVariants as answers;
ghost use Rattle.doc_blocks_starts.specs.HtmlKinds.{kind_of};

mod close;
mod kind;
mod take;

use crate::closed::Closed;
use crate::gathered::Gathered;
use crate::line::CODE;
use crate::paragraph::paragraph_text;
use crate::start::NewLeaf;
use close::closed;
use doc_blocks_starts::html::HtmlKind;
use doc_blocks_starts::indentation::{after_indent, is_blank_line};
use doc_blocks_starts::tag::LeafBlock;
use doc_blocks_starts::texts::Texts;
use doc_lines::cursor::Cursor;
use doc_lines::entities::Entities;
use doc_lines::unescape;
use doc_page_parts::failure::Memory;
use doc_page_parts::heap::Heap;
use doc_refs::RefMap;
use doc_tables::table::{begins_behind, has_table};
use kind::Kind;
use std::marker::Model;
use std::mem;
pub use take::LineTaken;
use take::{take_code, take_fenced, take_html};

/// The last block of a document so far, where it may take the next line, or none. Its text is gathered as the document will hold it,
/// in one room that is used again for the next leaf, and kept in [`Texts`] when it becomes a block. Contracts see it as
/// `specs/Leaves` does.
///
/// Where a call answers [`Memory`], nothing is known of the leaf from then on.
#[derive(Drop)]
pub struct OpenLeaf<'t> {
    kind: Kind,
    lines: Gathered,
    texts: &'t Texts,
}

impl<'t> Model for OpenLeaf<'t> {
    ghost use Rattle.doc_blocks_leaves.specs.Leaves as rules;
    ghost use Rattle.doc_blocks_leaves.specs.OpenLeaves.{leaf_shown, IsTold};

    ghost Value = { rules.OpenLeaf };

    ghost view = { λ leaf. leaf_shown leaf.kind leaf.lines };

    ghost invariant = { λ leaf. IsTold leaf.kind leaf.lines };
}

impl<'t> OpenLeaf<'t> {
    /// No open leaf. The blocks that it answers will have their texts in `texts`. Takes no memory.
    #[tactic(auto, unfolding(crate::specs::OpenLeaves::leaf_shown))]
    pub fn new(heap: Heap, texts: &'t Texts) -> OpenLeaf<'t>
        ensures { result ≡ NoLeaf }
    {
        OpenLeaf {
            kind: Kind::Nothing,
            lines: Gathered::new(heap),
            texts,
        }
    }

    /// Whether there is an open leaf.
    #[tactic(auto, unfolding(crate::specs::OpenLeaves::leaf_shown, crate::specs::OpenLeaves::is_open))]
    pub fn is_open(&self) -> bool
        ensures { result ≡ is_open self.now }
    {
        !matches!(self.kind, Kind::Nothing)
    }

    /// The text of the open paragraph, if the leaf is one, with the definitions at its front.
    #[tactic(auto, unfolding(crate::specs::OpenLeaves::leaf_shown, crate::specs::OpenLeaves::paragraph_text))]
    pub fn paragraph(&self) -> Option<&str>
        ensures { rest_of result ≡ paragraph_text self.now }
    {
        match self.kind {
            Kind::Paragraph { .. } => Some(self.lines.all()),
            _ => None,
        }
    }

    /// Whether the leaf is a paragraph with a table in it. It is known where each of its lines came with that wish, and else its text is
    /// looked through.
    #[tactic(auto, unfolding(crate::specs::OpenLeaves::leaf_shown, crate::specs::OpenLeaves::holds_table))]
    pub fn holds_table(&self) -> bool
        ensures { result ≡ holds_table self.now }
    {
        match &self.kind {
            Kind::Paragraph { table: Some(holds) } => *holds,
            Kind::Paragraph { table: None } => has_table(self.lines.all()),
            _ => false,
        }
    }

    /// Offers a line to the leaf before anything may begin on it: fences, HTML blocks and indented code take theirs first.
    /// Where it is to be closed, [`OpenLeaf::close`] comes next.
    #[tactic(auto, unfolding(crate::specs::OpenLeaves::leaf_shown, crate::specs::Leaves::taken))]
    pub fn take(&mut self, line: &Cursor) -> Result<LineTaken, Memory>
        ensures taken { IfOk result (λ answer. taken_shown answer self.new
            ≡ taken (left_of line.now) self.old) }
        ensures no { IfOk result (λ answer. answer ≡ answers.No → self.new ≡ self.old) }
    {
        match &self.kind {
            Kind::Nothing | Kind::Paragraph { .. } => Ok(LineTaken::No),
            Kind::Code => take_code(&mut self.lines, line),
            Kind::Fenced { fence, info: _ } => take_fenced(*fence, &mut self.lines, line),
            Kind::Html(kind) => take_html(*kind, &mut self.lines, line),
        }
    }

    /// Closes the leaf, and answers its blocks: a paragraph of definitions alone is none. What definitions name joins `refs`.
    #[tactic(auto, unfolding(crate::specs::OpenLeaves::leaf_shown))]
    pub fn close(
        &mut self,
        heap: Heap,
        entities: &Entities,
        refs: &mut RefMap,
    ) -> Result<Closed<'t>, Memory>
        ensures leaf { OnOk result (self.new ≡ NoLeaf) }
        ensures blocks { IfOk result (λ blocks. (before : Blocks)
            → with_closed blocks before ≡ with_open entities.now self.old before) }
        ensures refs { OnOk result (refs.new
            ≡ joined refs.old (targets_of (open_references entities.now self.old))) }
    {
        let kind = mem::replace(&mut self.kind, Kind::Nothing);
        let blocks = closed(heap, self.texts, kind, &self.lines, entities, refs)?;
        self.lines.clear();
        Ok(blocks)
    }

    /// Makes a heading of this level of the open paragraph (CommonMark 0.31.2, section 4.3), and answers it, if definitions leave any text.
    /// What they name joins `refs`. Where no paragraph is open, nothing happens.
    pub fn underline(
        &mut self,
        heap: Heap,
        level: u8,
        entities: &Entities,
        refs: &mut RefMap,
    ) -> Result<Option<LeafBlock<'t>>, Memory>
        ensures leaf { OnOk result (self.new ≡ underlined self.old) }
        ensures block { IfOk result (λ block. (before : Blocks)
            → with_block block before ≡ with_underlined entities.now level self.old before) }
        ensures refs { OnOk result (refs.new
            ≡ joined refs.old (targets_of (underlined_references entities.now self.old))) }
    {
        let Some(above) = self.paragraph() else {
            return Ok(None);
        };
        let text = paragraph_text(heap, self.texts, above, entities, refs)?;
        self.clear();
        let Some(text) = text else {
            return Ok(None);
        };
        Ok(Some(LeafBlock::Heading { level, text }))
    }

    /// Drops what is open. The room of its lines stays.
    #[tactic(auto, unfolding(crate::specs::OpenLeaves::leaf_shown))]
    fn clear(&mut self)
        ensures { self.new ≡ NoLeaf }
    {
        self.kind = Kind::Nothing;
        self.lines.clear();
    }

    /// Begins a paragraph with this line (CommonMark 0.31.2, section 4.8). What was open before is dropped, as by all calls that begin
    /// a leaf. Where tables are looked for, it is kept whether one is in it.
    #[tactic(auto, unfolding(crate::specs::OpenLeaves::leaf_shown))]
    pub fn begin_paragraph(&mut self, line: &Cursor, looks: bool) -> Result<(), Memory>
        ensures { OnOk result (self.new ≡ OpenParagraph (line_text (left_of line.now))) }
    {
        self.kind = Kind::Nothing;
        self.lines.clear();
        self.lines.add_text(line)?;
        let table = table_begun(&self.lines, looks);
        self.kind = Kind::Paragraph { table };
        Ok(())
    }

    /// Goes on with the open paragraph (CommonMark 0.31.2, section 4.8). Where no paragraph is open, nothing happens.
    #[tactic(auto, unfolding(crate::specs::OpenLeaves::leaf_shown, crate::specs::OpenLeaves::leaf_continued))]
    pub fn continue_paragraph(&mut self, line: &Cursor, looks: bool) -> Result<(), Memory>
        ensures { OnOk result (self.new ≡ leaf_continued (left_of line.now) self.old) }
    {
        let Kind::Paragraph { table } = self.kind else {
            return Ok(());
        };
        self.kind = Kind::Nothing;
        let table = table_with(&self.lines, table, line, looks);
        self.lines.add_next_text(line)?;
        self.kind = Kind::Paragraph { table };
        Ok(())
    }

    /// Begins indented code with this line, which isn't blank (CommonMark 0.31.2, section 4.4).
    #[tactic(auto, unfolding(crate::specs::OpenLeaves::leaf_shown))]
    pub fn begin_code(&mut self, line: &Cursor) -> Result<(), Memory>
        ensures { OnOk result (self.new ≡ OpenCode (code_with (left_of line.now) [])
            (code_with (left_of line.now) [])) }
    {
        self.kind = Kind::Code;
        self.lines.clear();
        self.lines.add_line(line, CODE)?;
        self.lines.keep(false);
        Ok(())
    }

    /// Begins the leaf that this line begins, as [`crate::start::leaf_start`] answered for it. A leaf of one line is no open one: the
    /// answer is its block.
    #[tactic(auto, unfolding(crate::specs::OpenLeaves::leaf_shown))]
    pub fn begin(
        &mut self,
        heap: Heap,
        line: &Cursor,
        leaf: NewLeaf,
        entities: &Entities,
    ) -> Result<Option<LeafBlock<'t>>, Memory>
        ensures leaf { OnOk result (self.new
            ≡ open_of entities.now (leaf_lines (left_of line.now) leaf.entry)) }
        ensures block { IfOk result (λ block. (before : Blocks) →
            with_block block before ≡ with_begun entities.now
            (leaf_lines (left_of line.now) leaf.entry)
            (open_of entities.now (leaf_lines (left_of line.now) leaf.entry)) before) }
    {
        self.lines.clear();
        self.kind = Kind::Nothing;
        match leaf {
            NewLeaf::Heading(heading) => Ok(Some(LeafBlock::Heading {
                level: heading.level,
                text: self.texts.keep(heading.text)?,
            })),
            NewLeaf::Fenced(start) => {
                let info = unescape(heap, start.info, entities)?;
                self.kind = Kind::Fenced {
                    fence: start.fence,
                    info,
                };
                Ok(None)
            }
            NewLeaf::Html { kind, goes_on } => self.begin_html(line, kind, goes_on),
            NewLeaf::Break => Ok(Some(LeafBlock::Break)),
        }
    }

    /// Begins an HTML block with this line, or answers it where it ends there.
    fn begin_html(
        &mut self,
        line: &Cursor,
        kind: HtmlKind,
        goes_on: bool,
    ) -> Result<Option<LeafBlock<'t>>, Memory>
        ensures leaf { (rules : Rules)
            → OnOk result (self.new ≡ open_of rules
            (HtmlLines goes_on (kind_of kind) (text_of (left_of line.now) ∷ []))) }
        ensures block { (rules : Rules)
            → IfOk result (λ block. (before : Blocks) → with_block block before
            ≡ with_begun rules (HtmlLines goes_on (kind_of kind) (text_of (left_of line.now) ∷ []))
            (open_of rules (HtmlLines goes_on (kind_of kind) (text_of (left_of line.now) ∷ [])))
            before) }
    {
        self.kind = Kind::Nothing;
        self.lines.clear();
        self.lines.add_rest(line)?;
        self.lines.keep(is_blank_line(line));
        if goes_on {
            self.kind = Kind::Html(kind);
            return Ok(None);
        }
        Ok(Some(LeafBlock::Html(self.texts.keep(self.lines.kept())?)))
    }
}

/// Whether a table is in a paragraph of these lines, where tables are looked for.
fn table_begun(lines: &Gathered, looks: bool) -> Option<bool>
    ensures { IfSome result (λ holds. holds ≡ has_table lines.now.all) }
{
    if !looks {
        return None;
    }
    Some(has_table(lines.all()))
}

/// Whether a table is in a paragraph of these lines, of which that is known or not, when another one goes on with it. Nothing of its text
/// is read but the last line. Where it wasn't known, or tables aren't looked for, it isn't.
fn table_with(lines: &Gathered, table: Option<bool>, line: &Cursor, looks: bool) -> Option<bool>
    ensures { IfSome table (λ holds. holds ≡ has_table lines.now.all)
        → IfSome result (λ holds. holds
        ≡ has_table (lines.now.all ++ 10 ∷ line_text (left_of line.now))) }
{
    if !looks {
        return None;
    }
    let holds = table?;
    Some(holds || begins_behind(lines.all(), after_indent(line)))
}
