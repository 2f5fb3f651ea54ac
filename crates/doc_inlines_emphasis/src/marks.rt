//! The marks made so far: what the reader of inlines puts behind them, turns into another, and wraps in emphasis.
ghost use Rattle.std.specs.Prelude.{◌≡◌, ℕ, suc, ◌≤◌, ◌<◌, [], ◌∷◌, ◌++◌, length, take, drop, replicate, chars, slice_set, OnOk};
ghost use Rattle.doc_rules.specs.Characters as rules;
ghost use Rattle.doc_rules.specs.Emphasis.{emphasis_of};
ghost use Rattle.doc_inlines_emphasis.specs.Marks.{ArePlaced};
ghost use Rattle.doc_inlines_marks.specs.Slices.{AreSlices, AreCut};
ghost use Rattle.doc_inlines_marks.specs.Views.{inlines_shown};
ghost use Rattle.doc_inlines_emphasis.specs.declared.marks.Place.{Place as Spot};
ghost use Rattle.doc_inlines_emphasis.specs.RunSteps.{delimiter as character};
ghost use Rattle.doc_inlines_emphasis.specs.Views.{items_of, marks_in, runs_in, shown_between, IsSound, IsPlace};
ghost use Rattle.doc_inlines_emphasis.specs.Texts.{IsRunText, AddsEach, fresh_run};

use crate::delimiter::Delimiter;
use crate::openers::Openers;
use crate::pair::put;
use crate::pass::pass;
use crate::run::Run;
use doc_inlines_marks::mark_ref::MarkRef;
use doc_page_parts::failure::Memory;
use doc_page_parts::heap::{Heap, Vec};

/// Marks made so far, and the delimiter runs among them. Each delimiter has a mark of its own.
#[derive(Drop)]
pub struct Marks<'t, 'r> {
    marks: Vec<MarkRef<'t, 'r>>,
    runs: Vec<Run>,
    openers: Openers,
}

/// A place among marks: how many marks and how many runs stand before it.
#[derive(Clone, Copy)]
pub struct Place {
    pub marks: usize,
    pub runs: usize,
}

impl<'t, 'r> Marks<'t, 'r> {
    /// No marks and no runs. Takes no memory.
    pub fn new(heap: Heap) -> Self
        ensures items { items_of result ≡ [] }
        ensures runs { runs_in result ≡ [] }
        ensures sound { IsSound result }
    {
        Marks {
            marks: Vec::new(heap),
            runs: Vec::new(heap),
            openers: Openers::new(heap),
        }
    }

    /// Lets all marks and runs go, and keeps their room.
    pub fn clear(&mut self)
        ensures items { items_of self.new ≡ [] }
        ensures runs { runs_in self.new ≡ [] }
        ensures sound { IsSound self.new }
    {
        self.marks.clear();
        self.runs.clear();
    }

    /// A mark that is no delimiter's comes behind all.
    pub fn push(&mut self, mark: MarkRef<'t, 'r>) -> Result<(), Memory>
        requires { IsSound self.old }
        ensures items { OnOk result (items_of self.new ≡ items_of self.old ++ (mark.entry ∷ [])) }
        ensures runs { OnOk result (runs_in self.new ≡ runs_in self.old) }
        ensures sound { OnOk result (IsSound self.new) }
        ensures places { OnOk result ((place : Spot) → IsPlace self.old place
            → IsPlace self.new place) }
    {
        self.marks.push(mark)?;
        Ok(())
    }

    /// A run comes behind all, with a mark for each of its delimiters, which are its text. Of `~` there are one or two.
    pub fn push_run(
        &mut self,
        text: &'t str,
        delimiter: Delimiter,
        opens: bool,
        closes: bool,
    ) -> Result<(), Memory>
        requires sound { IsSound self.old }
        requires text { IsRunText delimiter (chars text.now) }
        ensures items { OnOk result (AddsEach (items_of self.old) (items_of self.new)
            (chars text.now)) }
        ensures runs { OnOk result ((n c : ℕ) → chars text.now ≡ replicate (suc n) c
            → runs_in self.new ≡ runs_in self.old
            ++ (fresh_run (length (items_of self.old)) c (suc n) opens closes ∷ [])) }
        ensures sound { OnOk result (IsSound self.new) }
        ensures places { OnOk result ((place : Spot) → IsPlace self.old place
            → IsPlace self.new place) }
    {
        let first = self.marks.len();
        let length = text.len();
        push_delimiters(&mut self.marks, delimiter, length)?;
        self.runs.push(Run {
            first,
            left: length,
            length,
            delimiter,
            opens,
            closes,
        })?;
        Ok(())
    }

    /// The place behind all.
    pub fn place(&self) -> Place
        requires { IsSound self.now }
        ensures marks { result.marks ≡ length (items_of self.now) }
        ensures runs { result.runs ≡ length (runs_in self.now) }
        ensures place { IsPlace self.now result }
    {
        Place {
            marks: self.marks.len(),
            runs: self.runs.len(),
        }
    }

    /// Wraps in emphasis what stands from a place on, whose runs leave. The delimiters that are taken become starts, ends and empty
    /// texts in place.
    pub fn wrap(&mut self, from: Place) -> Result<(), Memory>
        requires { IsPlace self.old from }
        ensures size { OnOk result (length (items_of self.new) ≡ length (items_of self.old)) }
        ensures before { OnOk result (take from.marks (items_of self.new)
            ≡ take from.marks (items_of self.old)) }
        ensures runs { OnOk result (runs_in self.new ≡ take from.runs (runs_in self.old)) }
        ensures emphasis { OnOk result (inlines_shown (drop from.marks (items_of self.new))
            ≡ emphasis_of (shown_between self.old from.marks (length (items_of self.old))
            (drop from.runs (runs_in self.old)))) }
        ensures slices { OnOk result ((text : rules.Text) → AreSlices text (items_of self.old)
            → AreSlices text (items_of self.new)) }
        ensures cut { OnOk result (AreCut (items_of self.old) → AreCut (items_of self.new)) }
        ensures sound { OnOk result (IsSound self.new) }
        ensures places { OnOk result ((place : Spot) → place.marks ≤ from.marks
            → place.runs ≤ from.runs → IsPlace self.old place → IsPlace self.new place) }
    {
        pass(
            &mut self.marks,
            &mut self.runs[from.runs..],
            &mut self.openers,
        )?;
        self.runs.truncate(from.runs);
        Ok(())
    }

    /// Sets a mark that is no delimiter's, with no run behind it.
    pub fn turn(&mut self, at: usize, mark: MarkRef<'t, 'r>)
        requires within { at < length (items_of self.old) }
        requires behind { ArePlaced (marks_in self.old) 0 at (runs_in self.old) }
        ensures items { items_of self.new ≡ slice_set (items_of self.old) at mark.entry }
        ensures runs { runs_in self.new ≡ runs_in self.old }
        ensures sound { IsSound self.new }
        ensures places { (place : Spot) → IsPlace self.old place → IsPlace self.new place }
    {
        put(&mut self.marks, at, mark);
    }

    /// The marks.
    pub fn as_slice(&self) -> &[MarkRef<'t, 'r>]
        ensures { result.now ≡ items_of self.now }
    {
        &self.marks
    }

    /// How many runs the searches for an opener looked at since this was made.
    pub fn looked(&self) -> u64 {
        self.openers.looked
    }
}

/// So many delimiters come behind the marks.
fn push_delimiters<'t, 'r>(
    marks: &mut Vec<MarkRef<'t, 'r>>,
    delimiter: Delimiter,
    length: usize,
) -> Result<(), Memory>
    ensures { OnOk result (AddsEach marks.old.items marks.new.items
        (replicate length (character delimiter))) }
{
    let text = delimiter.text();
    for _ in 0..length {
        marks.push(MarkRef::Text(text))?;
    }
    Ok(())
}
