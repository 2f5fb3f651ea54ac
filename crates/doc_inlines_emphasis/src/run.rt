//! Delimiter runs: which may open for which (rules 9 and 10 of CommonMark 0.31.2, section 6.2; GFM 0.29, section 6.5), and how many
//! delimiters a pair takes.
ghost use Rattle.std.specs.Prelude.{◌≡◌, ◌<◌, if◌then◌else◌};
ghost use Rattle.doc_rules.specs.Emphasis.{matches, strength, span_of};
ghost use Rattle.doc_inlines_emphasis.specs.Openers.{closer_kind};
ghost use Rattle.doc_inlines_marks.specs.Views.{span_shown};
ghost use Rattle.doc_inlines_emphasis.specs.RunSteps.{delimiter, run_shown};

use crate::delimiter::Delimiter;
use doc_inlines_marks::mark_ref::SpanRef;

/// A run. Each delimiter that is left of it has a mark of its own, the leftmost of them at `first`. Of `~` the kind tells the length.
#[derive(Clone, Copy)]
pub(crate) struct Run {
    pub(crate) first: usize,
    pub(crate) left: usize,
    pub(crate) length: usize,
    pub(crate) delimiter: Delimiter,
    pub(crate) opens: bool,
    pub(crate) closes: bool,
}

impl Run {
    /// The number of its kind among closers.
    pub(crate) fn kind(self) -> usize
        ensures kind { result ≡ closer_kind (run_shown self) }
        ensures below { result < 14 }
    {
        let first = self.delimiter.first_kind();
        if self.delimiter.is_tilde() {
            return first;
        }
        first + (number_if(self.opens, 3) + self.length % 3)
    }

    /// Whether it may open for the closer (rules 9 and 10): of `~` each that is as long.
    pub(crate) fn opens_for(self, closer: Run) -> bool
        ensures { result ≡ matches (run_shown self) (run_shown closer) }
    {
        let either = self.opens & self.closes | closer.opens & closer.closes;
        let sum = (self.length % 3 + closer.length % 3) % 3 == 0;
        let both = (self.length % 3 == 0) & (closer.length % 3 == 0);
        let alike = self.delimiter.first_kind() == closer.delimiter.first_kind();
        let lengths = !(either & sum) | both | closer.delimiter.is_tilde();
        alike & (self.opens & closer.closes) & lengths
    }

    /// How many delimiters of each run a pair takes: two where both have two left (rules 13 and 14).
    pub(crate) fn strength(self, closer: Run) -> usize
        ensures { result ≡ strength (run_shown self) (run_shown closer) }
    {
        if self.left >= 2 && closer.left >= 2 {
            return 2;
        }
        1
    }
}

fn number_if(so: bool, number: usize) -> usize
    ensures { result ≡ (if so then number else 0) }
{
    if so {
        return number;
    }
    0
}

/// What so many of a delimiter make.
#[tactic(auto, unfolding(doc_inlines_marks::specs::Views::span_shown))]
pub(crate) fn span<'t, 'r>(own: Delimiter, taken: usize) -> SpanRef<'t, 'r>
    ensures { span_shown result ≡ span_of (delimiter own) taken }
{
    if own.is_tilde() {
        return SpanRef::Strike;
    }
    if taken == 2 {
        return SpanRef::Strong;
    }
    SpanRef::Emphasis
}
