//! Escapes and character references (CommonMark 0.31.2, sections 2.4 and 2.5).
ghost use Rattle.std.specs.Prelude.{◌≡◌, ◌∷◌, chars, OnOk};
ghost use Rattle.doc_rules.specs.Rules.{Rules};
ghost use Rattle.doc_refs_parts.specs.Targets.{Targets};
ghost use Rattle.doc_inlines.specs.ReaderSteps.{IsReader, GoesOn};

use crate::reader::Reader;
use crate::runs::behind_run;
use doc_inlines_marks::mark_ref::{MarkRef, ReferenceRef};
use doc_lines::character_reference;
use doc_lines::entities::Entities;
use doc_lines::scan::character::next_char;
use doc_lines::scan::front::front;
use doc_page_parts::failure::Memory;

impl<'t, 'r> Reader<'t, 'r> {
    /// A `\`: a hard break before a line ending, an escape before ASCII punctuation, and text before all else.
    pub(crate) fn backslash(&mut self, behind: &'t str) -> Result<(), Memory>
        requires sound { IsReader self.old }
        requires first { chars self.old.rest.now ≡ 92 ∷ chars behind.now }
        ensures { OnOk result ((rules : Rules) (targets : Targets)
            → GoesOn rules targets self.old self.new) }
    {
        let Some((d, rest)) = next_char(behind) else {
            self.literal('\\', behind);
            return Ok(());
        };
        if d == '\n' {
            self.put(MarkRef::Hard, behind_run(rest, ' '))?;
            return Ok(());
        }
        if d.is_ascii_punctuation() {
            self.put(MarkRef::Text(front(behind, rest)), rest)?;
            return Ok(());
        }
        self.literal('\\', behind);
        Ok(())
    }

    /// A `&`: a character reference, or text.
    pub(crate) fn ampersand(&mut self, entities: &Entities, behind: &'t str) -> Result<(), Memory>
        requires sound { IsReader self.old }
        requires first { chars self.old.rest.now ≡ 38 ∷ chars behind.now }
        ensures { OnOk result ((targets : Targets)
            → GoesOn entities.now targets self.old self.new) }
    {
        let Some((those, next)) = character_reference(entities, behind) else {
            self.alone('&', behind)?;
            return Ok(());
        };
        let source = front(self.rest, next);
        let kept: &'r ReferenceRef<'t> = self.arena.reference(ReferenceRef { source, those })?;
        self.put(MarkRef::Reference(kept), next)?;
        Ok(())
    }
}
