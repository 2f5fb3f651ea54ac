//! Brackets: what a `[`, a `![` and a `]` make (CommonMark 0.31.2, sections 6.3 and 6.4).
ghost use Rattle.std.specs.Prelude.{◌≡◌, Bool, [], ◌∷◌, ◌++◌, List, chars, OnOk, IfOk, IfSome, MatchOption, true};
ghost use Rattle.doc_rules.specs.Rules.{Rules};
ghost use Rattle.doc_rules.specs.Definitions.{Definition};
ghost use Rattle.doc_rules.specs.Parsers.{before};
ghost use Rattle.doc_rules.specs.Inlines.{Open};
ghost use Rattle.doc_rules.specs.Links.{linked};
ghost use Rattle.doc_rules.specs.Rests.{IsRest};
ghost use Rattle.doc_refs_parts.specs.Targets.{Targets, targets_of};
ghost use Rattle.doc_inlines_marks.specs.Targets.{named};
ghost use Rattle.doc_inlines_marks.specs.TailSteps.{tail_shown};
ghost use Rattle.doc_inlines_emphasis.specs.Views.{items_of, runs_in};
ghost use Rattle.doc_inlines.specs.DraftSteps.{AreOpen, codes_of_bracket, last_of};
ghost use Rattle.doc_inlines.specs.ReaderSteps.{IsReader, GoesOn, state_made};
ghost use Rattle.doc_inlines.specs.ClosingSteps.{tail_where, IsTaken, HasNoBracket};

use crate::bracket::Bracket;
use crate::reader::Reader;
use doc_inlines_marks::tails::link_tail;
use doc_inlines_marks::target_ref::TargetRef;
use doc_lines::entities::Entities;
use doc_lines::scan::character::is;
use doc_lines::scan::front::front;
use doc_page_parts::failure::Memory;
use doc_page_parts::heap::Heap;
use doc_refs::RefMap;

impl<'t, 'r> Reader<'t, 'r> {
    /// A `[` opens a bracket.
    pub(crate) fn left_bracket(&mut self, behind: &'t str) -> Result<(), Memory>
        requires sound { IsReader self.old }
        requires first { chars self.old.rest.now ≡ 91 ∷ chars behind.now }
        ensures { OnOk result ((rules : Rules) (targets : Targets)
            → GoesOn rules targets self.old self.new) }
    {
        self.open(false, behind)?;
        Ok(())
    }

    /// A `!` before a `[` opens an image's bracket.
    pub(crate) fn bang(&mut self, behind: &'t str) -> Result<(), Memory>
        requires sound { IsReader self.old }
        requires first { chars self.old.rest.now ≡ 33 ∷ chars behind.now }
        ensures { OnOk result ((rules : Rules) (targets : Targets)
            → GoesOn rules targets self.old self.new) }
    {
        let Some(after) = is(behind, '[') else {
            self.pass(behind);
            return Ok(());
        };
        self.open(true, after)?;
        Ok(())
    }

    /// A `]` closes the last bracket: with a tail behind it they are a link or an image, else text.
    pub(crate) fn right_bracket(
        &mut self,
        heap: Heap,
        entities: &'r Entities,
        refs: &'r RefMap,
        behind: &'t str,
    ) -> Result<(), Memory>
        requires sound { IsReader self.old }
        requires first { chars self.old.rest.now ≡ 93 ∷ chars behind.now }
        ensures { OnOk result (GoesOn entities.now refs.now self.old self.new) }
    {
        let Some((bracket, live)) = self.take_bracket()? else {
            self.pass(behind);
            return Ok(());
        };
        let Some((target, after)) = self.tail(heap, entities, refs, bracket, live, behind)? else {
            self.pass(behind);
            return Ok(());
        };
        self.link(bracket, target, after)?;
        Ok(())
    }

    /// A bracket before this text is opened.
    fn open(&mut self, image: bool, after: &'t str) -> Result<(), Memory>
        requires sound { IsReader self.old }
        requires first { chars self.old.rest.now ≡ codes_of_bracket image ++ chars after.now }
        ensures text { OnOk result (self.new.text ≡ self.old.text) }
        ensures rest { OnOk result (self.new.rest ≡ after.entry) }
        ensures made { OnOk result (state_made self.new
            ≡ Open (record { image = image; live = true; behind = chars after.now })
            ∷ state_made self.old) }
        ensures sound { OnOk result (IsReader self.new) }
    {
        let own = front(self.rest, after);
        self.flush()?;
        self.draft.open(own, image, after)?;
        self.rest = after;
        self.plain = after;
        Ok(())
    }

    /// Takes the last bracket, if there is one, from those that are open. Also whether it may begin a link or an image. All text before
    /// the rest has a mark then.
    fn take_bracket(&mut self) -> Result<Option<(Bracket<'t>, bool)>, Memory>
        requires { IsReader self.old }
        ensures { IfOk result (λ found. MatchOption found (HasNoBracket self.old self.new)
            (λ found. IsTaken self.old self.new found.0 found.1)) }
    {
        if self.draft.brackets.as_slice().is_empty() {
            return Ok(None);
        }
        self.flush()?;
        Ok(self.draft.pop())
    }

    /// The tail behind a `]` that stands at the rest, where its bracket may begin a link or an image.
    fn tail(
        &self,
        heap: Heap,
        entities: &'r Entities,
        refs: &'r RefMap,
        bracket: Bracket<'t>,
        live: bool,
        behind: &'t str,
    ) -> Result<Option<(TargetRef<'t, 'r>, &'t str)>, Memory>
        requires { IsRest (chars self.now.rest.now) (chars bracket.behind.now) }
        ensures value { (definitions : List Definition) → refs.now ≡ targets_of definitions
            → IfOk result (λ found. tail_shown found
            ≡ tail_where live entities.now definitions
            (before (chars self.now.rest.now) (chars bracket.entry.behind.now))
            (chars behind.now)) }
        ensures end { IfOk result (λ found. IfSome found
            (λ tail. IsRest (chars tail.1.now) (chars behind.now))) }
    {
        if !live {
            return Ok(None);
        }
        let between = front(bracket.behind, self.rest);
        link_tail(heap, entities, refs, between, behind)
    }

    /// A link or an image from the bracket, which was just taken, up to the text `after` its tail.
    fn link(
        &mut self,
        bracket: Bracket<'t>,
        target: TargetRef<'t, 'r>,
        after: &'t str,
    ) -> Result<(), Memory>
        requires sound { IsReader self.old }
        requires plain { self.old.plain ≡ self.old.rest }
        requires stood { AreOpen (items_of self.old.draft.marks) (runs_in self.old.draft.marks)
            (self.old.draft.brackets.items ++ (bracket ∷ [])) }
        requires after { IsRest (chars after.now) (chars self.old.rest.now) }
        ensures text { OnOk result (self.new.text ≡ self.old.text) }
        ensures rest { OnOk result (self.new.rest ≡ after.entry) }
        ensures made { (live : Bool)
            → OnOk result (state_made self.new
            ≡ linked (last_of self.old.draft bracket.entry live) (named target.entry)) }
        ensures sound { OnOk result (IsReader self.new) }
    {
        let kept: &'r TargetRef<'t, 'r> = self.arena.target(target)?;
        self.draft.link(bracket, kept)?;
        self.rest = after;
        self.plain = after;
        Ok(())
    }
}
