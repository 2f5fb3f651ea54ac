//! Line breaks, with the spaces around them (CommonMark 0.31.2, sections 6.7 and 6.8).
ghost use Rattle.std.specs.Prelude.{◌≡◌, suc, nat_le, [], ◌∷◌, chars, OnOk, if◌then◌else◌};
ghost use Rattle.doc_rules.specs.Parsers.{run_length};
ghost use Rattle.doc_rules.specs.Rules.{Rules};
ghost use Rattle.doc_rules.specs.Inlines.{SoftBreak, HardBreak};
ghost use Rattle.doc_refs_parts.specs.Targets.{Targets};
ghost use Rattle.doc_inlines_marks.specs.Slices.{slice_in, IsCut};
ghost use Rattle.doc_inlines_marks.specs.Views.{inlines_in};
ghost use Rattle.doc_inlines.specs.ReaderSteps.{IsReader, GoesOn};

use crate::plain::behind_plain;
use crate::reader::Reader;
use crate::runs::behind_run;
use doc_inlines_marks::mark_ref::MarkRef;
use doc_lines::entities::Entities;
use doc_lines::scan::character::{is, next_char};
use doc_page_parts::failure::Memory;

impl<'t, 'r> Reader<'t, 'r> {
    /// A line ending with no space before it. The spaces behind it go.
    pub(crate) fn line_ending(&mut self, behind: &'t str) -> Result<(), Memory>
        requires sound { IsReader self.old }
        requires first { chars self.old.rest.now ≡ 10 ∷ chars behind.now }
        ensures { OnOk result ((rules : Rules) (targets : Targets)
            → GoesOn rules targets self.old self.new) }
    {
        self.put(MarkRef::Soft, behind_run(behind, ' '))?;
        Ok(())
    }

    /// Spaces: before a line ending they belong to the break, which is hard where they are two or more. Else they are text, with the plain
    /// text behind them.
    pub(crate) fn spaces(&mut self, entities: &Entities, behind: &'t str) -> Result<(), Memory>
        requires sound { IsReader self.old }
        requires first { chars self.old.rest.now ≡ 32 ∷ chars behind.now }
        ensures { OnOk result ((targets : Targets)
            → GoesOn entities.now targets self.old self.new) }
    {
        let rest = behind_run(behind, ' ');
        let Some(after) = is(rest, '\n') else {
            self.pass_plain(entities, behind_plain(entities, rest));
            return Ok(());
        };
        let mark: MarkRef<'t, 'r> = break_mark(begins_with_space(behind));
        self.put(mark, behind_run(after, ' '))?;
        Ok(())
    }
}

/// Whether a space stands behind a first one.
#[tactic(auto, using(crate::proofs::GapLaws::space_at_end))]
fn begins_with_space(text: &str) -> bool
    ensures { result ≡ nat_le 2 (suc (run_length 32 (chars text.now))) }
{
    let Some((c, _)) = next_char(text) else {
        return false;
    };
    c == ' '
}

/// A line break.
#[tactic(auto, unfolding(doc_inlines_marks::specs::Views::inlines_in, doc_inlines_marks::specs::Slices::slice_in))]
fn break_mark<'t, 'r>(hard: bool) -> MarkRef<'t, 'r>
    ensures shown { inlines_in result ≡ (if hard then HardBreak else SoftBreak) ∷ [] }
    ensures slice { slice_in result ≡ [] }
    ensures cut { IsCut result }
{
    if hard { MarkRef::Hard } else { MarkRef::Soft }
}
