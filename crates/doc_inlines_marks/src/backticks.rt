//! Code spans (CommonMark 0.31.2, section 6.1).
ghost use Rattle.std.specs.Prelude.{◌≡◌, chars, IfOk, IfSome, IsTrue, OnOk, OnErr};
ghost use Rattle.doc_rules.specs.Characters as rules;
ghost use Rattle.doc_rules.specs.Rests.{IsRest};
ghost use Rattle.doc_inlines_marks.specs.PlaceSteps.{StandsBefore};
ghost use Rattle.doc_inlines_marks.specs.CodeSpans.{code_span_at, code_found};
ghost use Rattle.doc_inlines_marks.specs.ToldSteps.{Lacks, TellsOfRuns};
ghost use Rattle.doc_inlines_marks.specs.LearnSteps.{HasLearned};

use crate::code::code_text;
use crate::runs::{learn_places, run, span_end};
use doc_page_parts::failure::Memory;
use doc_page_parts::heap::{Heap, Vec};

/// What the searches for the ends of code spans in one text learned: nothing before the first that failed, and then for each length of a
/// run where its last run begins.
#[derive(Drop)]
pub struct Backticks {
    /// So many bytes were left of the text where its runs were learned: nothing is known of what stands before.
    learned: usize,
    /// For each length how many bytes are left where its last run begins, or as many as `learned` where there is none.
    places: Vec<usize>,
}

impl Backticks {
    /// Nothing is learned yet.
    pub fn new(heap: Heap) -> Self
        ensures { (whole : rules.Text) → TellsOfRuns result whole }
    {
        Backticks {
            learned: 0,
            places: Vec::new(heap),
        }
    }

    /// Nothing is learned any more: another text may follow. The room stays.
    pub fn forget(&mut self)
        ensures { (whole : rules.Text) → TellsOfRuns self.new whole }
    {
        self.learned = 0;
    }

    /// Where `text` stands behind the first backtick of a run: the text of the code span that begins there, if one does, with the text
    /// behind it, or else the text behind the run.
    pub fn code_span<'t>(&mut self, text: &'t str) -> Result<(Option<&'t str>, &'t str), Memory>
        ensures value { (whole : rules.Text) → TellsOfRuns self.old whole
            → IsRest (chars text.now) whole
            → IfOk result (λ found. code_found found ≡ code_span_at (chars text.now)) }
        ensures told { (whole : rules.Text) → TellsOfRuns self.old whole
            → IsRest (chars text.now) whole → TellsOfRuns self.new whole }
        ensures slice { IfOk result (λ found. IfSome found.0
            (λ content. StandsBefore (chars content.now) (chars found.1.now) (chars text.now))) }
        ensures end { IfOk result (λ found. IsRest (chars found.1.now) (chars text.now)) }
    {
        let (more, rest) = run(text);
        let length = more + 1;
        if self.lacks(length, rest.len()) {
            return Ok((None, rest));
        }
        if let Some((inside, behind)) = span_end(rest, length) {
            return Ok((Some(code_text(inside)), behind));
        }
        self.learn(rest)?;
        Ok((None, rest))
    }

    /// So few bytes are left that no run of this length stands there.
    fn lacks(&self, length: usize, left: usize) -> bool
        ensures { IsTrue result → Lacks self.now length left }
    {
        match self.places.get(length) {
            Some(place) => left < self.learned && left < *place,
            None => left < self.learned,
        }
    }

    /// Learns the places of all runs in this text. Where there is no memory, nothing is known.
    fn learn(&mut self, text: &str) -> Result<(), Memory>
        ensures learned { OnOk result (HasLearned self.new (chars text.now)) }
        ensures nothing { OnErr result (self.new.learned ≡ 0) }
    {
        self.learned = 0;
        self.places.clear();
        learn_places(&mut self.places, text)?;
        self.learned = text.len();
        Ok(())
    }
}
