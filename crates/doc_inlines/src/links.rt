//! Addresses that are links without `<` and `>` (GFM 0.29, section 6.9).
ghost use Rattle.std.specs.Prelude.{◌≡◌, ◌∷◌, true, chars, codes, OnOk};
ghost use Rattle.doc_rules.specs.Characters.{one_of};
ghost use Rattle.doc_rules.specs.Rules.{Rules};
ghost use Rattle.doc_refs_parts.specs.Targets.{Targets};
ghost use Rattle.doc_inlines.specs.ReaderSteps.{IsReader, GoesOn};

use crate::plain::text_behind;
use crate::reader::Reader;
use crate::runs::last_or_line;
use doc_inlines_addresses::bare_address;
use doc_lines::entities::Entities;
use doc_lines::scan::front::front;
use doc_page_parts::failure::Memory;

impl<'t, 'r> Reader<'t, 'r> {
    /// A letter with which an address may begin, where bare links are read.
    pub(crate) fn letter(
        &mut self,
        entities: &Entities,
        c: char,
        behind: &'t str,
    ) -> Result<(), Memory>
        requires sound { IsReader self.old }
        requires first { chars self.old.rest.now ≡ c ∷ chars behind.now }
        requires letter { one_of (codes "whHfF") c ≡ true }
        ensures { OnOk result ((targets : Targets)
            → GoesOn entities.now targets self.old self.new) }
    {
        if !entities.bare_links() {
            self.plain(entities, c, behind);
            return Ok(());
        }
        self.bare_link(c, behind)
    }

    /// A link over the address at the front of the rest, or a letter that is text. In a bracket that may begin a link or an image there
    /// is none.
    fn bare_link(&mut self, c: char, behind: &'t str) -> Result<(), Memory>
        requires sound { IsReader self.old }
        requires first { chars self.old.rest.now ≡ c ∷ chars behind.now }
        requires letter { one_of (codes "whHfF") c ≡ true }
        ensures { OnOk result ((rules : Rules) (targets : Targets) → rules.bare_links ≡ true
            → GoesOn rules targets self.old self.new) }
    {
        if self.draft.has_live_bracket() {
            self.literal(c, behind);
            return Ok(());
        }
        let last = last_or_line(front(self.text, self.rest));
        let Some((scheme, address)) = bare_address(last, self.rest) else {
            self.literal(c, behind);
            return Ok(());
        };
        let rest = text_behind(self.rest, address);
        self.put_autolink(scheme, address, rest)?;
        Ok(())
    }
}
