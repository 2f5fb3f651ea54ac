//! The runs that may still open: a stack of their numbers, and for each of 14 kinds of closers (by character, by whether it may open too,
//! and by its length modulo 3, or of `~` by its length) a lower bound, below which none opens for it. A search goes down from the top and ends at the bound.
ghost use Rattle.std.specs.Prelude.{◌≡◌, ◌+◌, ◌<◌, true, if◌then◌else◌, [], length, replicate, take, OnOk};
ghost use Rattle.doc_inlines_emphasis.specs.Openers.{NearestIs, AreBounds, Ascend, StandBefore};
ghost use Rattle.doc_inlines_emphasis.specs.NumberSteps.{run_numbered, joined_openers};
ghost use Rattle.doc_inlines_emphasis.specs.PassSteps.{Stacked};
ghost use Rattle.doc_inlines_emphasis.specs.RunSteps.{run_shown, all_placed};

use crate::run::Run;
use doc_page_parts::failure::Memory;
use doc_page_parts::heap::{Heap, Vec};

/// The runs that may still open, by their numbers, with a lower bound for each kind of closer: no run that is numbered below it opens
/// for one of that kind. `looked` counts the runs that the searches looked at.
#[derive(Drop)]
pub(crate) struct Openers {
    pub(crate) numbers: Vec<usize>,
    pub(crate) bounds: [usize; 14],
    pub(crate) looked: u64,
}

impl Openers {
    pub(crate) fn new(heap: Heap) -> Openers {
        Openers {
            numbers: Vec::new(heap),
            bounds: [0; 14],
            looked: 0,
        }
    }

    /// None at first.
    pub(crate) fn start(&mut self)
        ensures numbers { self.new.numbers.items ≡ [] }
        ensures bounds { self.new.bounds ≡ replicate 14 0 }
    {
        self.numbers.clear();
        self.bounds = [0; 14];
    }

    /// The place on the stack of the nearest opener for the run of this number. Where there is none, none that stands on it now is
    /// looked at again for a closer of that kind.
    pub(crate) fn search(&mut self, runs: &[Run], number: usize) -> Option<usize>
        requires stacked { Stacked (all_placed runs.now) self.old.numbers.items self.old.bounds
            number }
        requires within { number < length runs.now }
        requires closes { (run_numbered (all_placed runs.now) number).closes ≡ true }
        ensures nearest { NearestIs (run_numbered (all_placed runs.now)) self.old.numbers.items
            (run_numbered (all_placed runs.now) number) result }
        ensures numbers { self.new.numbers ≡ self.old.numbers }
        ensures stacked { Stacked (all_placed runs.now) self.new.numbers.items self.new.bounds
            number }
    {
        let closer = runs[number];
        match nearest(runs, &self.numbers, &self.bounds, closer, &mut self.looked) {
            Some(place) => Some(place),
            None => {
                self.bounds[closer.kind()] = number;
                None
            }
        }
    }

    /// The run at this place of the stack opened for a closer: the runs above it go, and so does the run itself where none is left of it.
    pub(crate) fn keep(&mut self, place: usize, left: bool)
        requires { place < length self.old.numbers.items }
        ensures numbers { self.new.numbers.items
            ≡ take (if left then place + 1 else place) self.old.numbers.items }
        ensures bounds { self.new.bounds ≡ self.old.bounds }
    {
        let kept = if left { place + 1 } else { place };
        self.numbers.truncate(kept);
    }

    /// The run of this number is passed: it joins where it may open and delimiters are left of it.
    pub(crate) fn join(&mut self, runs: &[Run], number: usize) -> Result<(), Memory>
        requires { number < length runs.now }
        ensures numbers { OnOk result (self.new.numbers.items
            ≡ joined_openers (all_placed runs.now) self.old.numbers.items number) }
        ensures bounds { self.new.bounds ≡ self.old.bounds }
    {
        let run = runs[number];
        if run.opens && run.left > 0 {
            self.numbers.push(number)?;
        }
        Ok(())
    }
}

/// The place of the last of these runs that opens for the closer.
fn nearest(
    runs: &[Run],
    numbers: &[usize],
    bounds: &[usize; 14],
    closer: Run,
    looked: &mut u64,
) -> Option<usize>
    requires bounded { AreBounds bounds.now (run_numbered (all_placed runs.now)) numbers.now }
    requires ascend { Ascend numbers.now }
    requires within { StandBefore (length runs.now) numbers.now }
    requires closes { closer.closes ≡ true }
    ensures { NearestIs (run_numbered (all_placed runs.now)) numbers.now (run_shown closer) result }
{
    let bound = bounds[closer.kind()];
    let mut place = numbers.len();
    while place > 0 {
        place -= 1;
        let number = numbers[place];
        if number < bound {
            return None;
        }
        *looked = looked.wrapping_add(1);
        if runs[number].opens_for(closer) {
            return Some(place);
        }
    }
    None
}
