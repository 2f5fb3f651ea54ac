//! A reader of texts: where it stands in a text, and which kind of item begins there.
//!
//!     text:  | in marks | passed, and in no mark yet | still to be read |
//!                       ^ plain                      ^ rest
ghost use Rattle.std.specs.Prelude.{◌≡◌, ℕ, ◌≤◌, List, true, [], ◌∷◌, ◌++◌, length, chars, OnOk};
ghost use Rattle.std.specs.List.{list_all};
ghost use Rattle.doc_rules.specs.Definitions.{Definition};
ghost use Rattle.doc_rules.specs.Parsers.{before};
ghost use Rattle.doc_rules.specs.Inlines.{literals, onto};
ghost use Rattle.doc_rules.specs.Reading.{inlines_of};
ghost use Rattle.doc_rules.specs.Rests.{IsRest};
ghost use Rattle.doc_rules.specs.Rules.{Rules};
ghost use Rattle.doc_refs_parts.specs.Targets.{Targets, targets_of};
ghost use Rattle.doc_inlines_marks.specs.Slices.{AreSlices, AreCut};
ghost use Rattle.doc_inlines_marks.specs.Views.{inlines_in, inlines_shown};
ghost use Rattle.doc_inlines.specs.ReaderSteps.{IsReader, GoesOn, ReadsOn, ReadsAll, marks_of, state_made, is_uncut, MarkStands};

use crate::draft::Draft;
use crate::plain::behind_plain;
use doc_inlines_emphasis::Delimiter;
use doc_inlines_marks::arena::Arena;
use doc_inlines_marks::mark_ref::MarkRef;
use doc_inlines_marks::{Backticks, MissingEnds};
use doc_lines::entities::Entities;
use doc_lines::scan::character::next_char;
use doc_lines::scan::front::front;
use doc_page_parts::failure::Memory;
use doc_page_parts::heap::Heap;
use doc_refs::RefMap;

/// A reader of texts. It keeps its room from one text to the next, and the marks of the last text that it read.
#[derive(Drop)]
pub struct Reader<'t, 'r> {
    /// Where the marks' targets and references stand.
    pub(crate) arena: &'r Arena,
    /// The whole text.
    pub(crate) text: &'t str,
    /// The text from where no mark has it yet.
    pub(crate) plain: &'t str,
    /// The text that is still to be read.
    pub(crate) rest: &'t str,
    pub(crate) draft: Draft<'t, 'r>,
    pub(crate) backticks: Backticks,
    pub(crate) missing: MissingEnds,
}

impl<'t, 'r> Reader<'t, 'r> {
    /// A reader that has read nothing. Takes no memory.
    pub fn new(heap: Heap, arena: &'r Arena) -> Self
        ensures { marks_of result ≡ [] }
    {
        Reader {
            arena,
            text: "",
            plain: "",
            rest: "",
            draft: Draft::new(heap),
            backticks: Backticks::new(heap),
            missing: MissingEnds::new(),
        }
    }

    /// Reads a text. The slices of the marks stand in the text one after another, and each `&`, `<`, `>` and `"` is a text of its own.
    /// Where it answers [`Memory`], nothing is known of the marks.
    pub fn read(
        &mut self,
        heap: Heap,
        entities: &'r Entities,
        refs: &'r RefMap,
        text: &'t str,
    ) -> Result<(), Memory>
        ensures inlines { (definitions : List Definition) → refs.now ≡ targets_of definitions
            → OnOk result (inlines_shown (marks_of self.new)
            ≡ inlines_of entities.now definitions (chars text.now)) }
        ensures slices { OnOk result (AreSlices (chars text.now) (marks_of self.new)) }
        ensures cut { OnOk result (AreCut (marks_of self.new)) }
    {
        self.begin(text);
        self.read_items(heap, entities, refs)?;
        self.flush()?;
        self.draft.finish()?;
        Ok(())
    }

    /// Nothing of this text is read.
    fn begin(&mut self, text: &'t str)
        ensures text { self.new.text ≡ text.entry }
        ensures rest { self.new.rest ≡ text.entry }
        ensures made { state_made self.new ≡ [] }
        ensures sound { IsReader self.new }
    {
        self.text = text;
        self.plain = text;
        self.rest = text;
        self.draft.clear();
        self.backticks.forget();
        self.missing = MissingEnds::new();
    }

    /// Reads all items.
    fn read_items(
        &mut self,
        heap: Heap,
        entities: &'r Entities,
        refs: &'r RefMap,
    ) -> Result<(), Memory>
        requires { IsReader self.old }
        ensures { OnOk result (ReadsAll entities.now refs.now self.old self.new) }
    {
        'items: while let Some((c, behind)) = next_char(self.rest) {
            self.item(heap, entities, refs, c, behind)?;
            self.skip_plain(entities);
        }
        Ok(())
    }

    /// Passes the plain text at the front of the rest, if there is any.
    fn skip_plain(&mut self, entities: &Entities)
        requires { IsReader self.old }
        ensures { (targets : Targets) → ReadsOn entities.now targets self.old self.new }
    {
        self.pass(behind_plain(entities, self.rest));
    }

    /// Reads one item, by its first character.
    fn item(
        &mut self,
        heap: Heap,
        entities: &'r Entities,
        refs: &'r RefMap,
        c: char,
        behind: &'t str,
    ) -> Result<(), Memory>
        requires sound { IsReader self.old }
        requires first { chars self.old.rest.now ≡ c ∷ chars behind.now }
        ensures { OnOk result (GoesOn entities.now refs.now self.old self.new) }
    {
        match c {
            ' ' => self.spaces(entities, behind),
            '\n' => self.line_ending(behind),
            '\\' => self.backslash(behind),
            '&' => self.ampersand(entities, behind),
            '`' => self.backticks(behind),
            '<' => self.left_angle(behind),
            '*' => self.delimiters('*', Delimiter::Star, behind),
            '_' => self.delimiters('_', Delimiter::Underscore, behind),
            '~' => self.tilde(entities, behind),
            'w' | 'h' | 'H' | 'f' | 'F' => self.letter(entities, c, behind),
            '[' => self.left_bracket(behind),
            '!' => self.bang(behind),
            ']' => self.right_bracket(heap, entities, refs, behind),
            '>' => self.other('>', behind),
            '"' => self.other('"', behind),
            _ => {
                self.plain(entities, c, behind);
                Ok(())
            }
        }
    }

    /// The marks of the text that was read last.
    pub fn marks(&self) -> &[MarkRef<'t, 'r>]
        ensures { result.now ≡ marks_of self.now }
    {
        self.draft.marks.as_slice()
    }

    /// How many delimiter runs the searches for an opener looked at, in all texts so far.
    pub fn looked(&self) -> u64 {
        self.draft.marks.looked()
    }

    /// The text up to this rest stays to be put into a mark, as it is.
    pub(crate) fn pass(&mut self, rest: &'t str)
        requires sound { IsReader self.old }
        requires rest { IsRest (chars rest.now) (chars self.old.rest.now) }
        requires uncut { list_all is_uncut (before (chars rest.now) (chars self.old.rest.now))
            ≡ true }
        ensures text { self.new.text ≡ self.old.text }
        ensures rest { self.new.rest ≡ rest.entry }
        ensures made { state_made self.new
            ≡ onto (literals (before (chars rest.now) (chars self.old.rest.now)))
            (state_made self.old) }
        ensures sound { IsReader self.new }
    {
        self.rest = rest;
    }

    /// The text that is in no mark yet gets one.
    pub(crate) fn flush(&mut self) -> Result<(), Memory>
        requires { IsReader self.old }
        ensures text { OnOk result (self.new.text ≡ self.old.text) }
        ensures rest { OnOk result (self.new.rest ≡ self.old.rest) }
        ensures plain { OnOk result (self.new.plain ≡ self.old.rest) }
        ensures made { OnOk result (state_made self.new ≡ state_made self.old) }
        ensures sound { OnOk result (IsReader self.new) }
    {
        let pending = front(self.plain, self.rest);
        self.plain = self.rest;
        if pending.is_empty() {
            return Ok(());
        }
        self.draft.put(MarkRef::Text(pending))?;
        Ok(())
    }

    /// A mark for the text up to this rest.
    pub(crate) fn put(&mut self, mark: MarkRef<'t, 'r>, rest: &'t str) -> Result<(), Memory>
        requires sound { IsReader self.old }
        requires stands { MarkStands mark (chars self.old.rest.now) (chars rest.now) }
        ensures text { OnOk result (self.new.text ≡ self.old.text) }
        ensures rest { OnOk result (self.new.rest ≡ rest.entry) }
        ensures made { OnOk result (state_made self.new
            ≡ onto (inlines_in mark.entry) (state_made self.old)) }
        ensures sound { OnOk result (IsReader self.new) }
    {
        self.flush()?;
        self.draft.put(mark)?;
        self.rest = rest;
        self.plain = rest;
        Ok(())
    }
}
