//! Runs of delimiters, and which may open or close emphasis or strikethrough by the characters beside them (CommonMark 0.31.2, section
//! 6.2; GFM 0.29, section 6.5).
ghost use Rattle.std.specs.Prelude.{◌≡◌, ℕ, suc, Some, true, ◌||◌, ◌==◌, ◌∷◌, chars, OnOk};
ghost use Rattle.doc_rules.specs.Characters.{first_or, last_or};
ghost use Rattle.doc_rules.specs.Parsers.{before, many};
ghost use Rattle.doc_rules.specs.Emphasis.{run_between};
ghost use Rattle.doc_rules.specs.Emphasis as specs;
ghost use Rattle.doc_rules.specs.Rules.{Rules};
ghost use Rattle.doc_rules.specs.Inlines.{Delimiters};
ghost use Rattle.doc_rules.specs.Rests.{IsRest};
ghost use Rattle.doc_refs_parts.specs.Targets.{Targets};
ghost use Rattle.doc_inlines_emphasis.specs.Texts.{IsRunText};
ghost use Rattle.doc_inlines.specs.DraftSteps.{IsRunOf};
ghost use Rattle.doc_inlines.specs.TildeSteps.{BeginsRun, IsRead};
ghost use Rattle.doc_inlines.specs.ReaderSteps.{IsReader, GoesOn, state_made};

use crate::classes::{is_punctuation, is_white};
use crate::reader::Reader;
use doc_inlines_emphasis::Delimiter;
use doc_lines::entities::Entities;
use doc_lines::scan::character::{is, last_char, next_char};
use doc_lines::scan::front::front;
use doc_lines::scan::run::many;
use doc_page_parts::failure::Memory;

impl<'t, 'r> Reader<'t, 'r> {
    /// A run of a character: each delimiter has a mark of its own.
    pub(crate) fn delimiters(
        &mut self,
        c: char,
        own: Delimiter,
        behind: &'t str,
    ) -> Result<(), Memory>
        requires sound { IsReader self.old }
        requires first { chars self.old.rest.now ≡ c ∷ chars behind.now }
        requires delimiter { BeginsRun c own (chars behind.now) }
        ensures { OnOk result ((rules : Rules) (targets : Targets) → IsRead rules c (chars behind.now)
            → GoesOn rules targets self.old self.new) }
    {
        let next = behind_run(behind, c);
        let run = front(self.rest, next);
        let last = last_or_line(front(self.text, self.rest));
        let first = first_or_line(next);
        let opens = opens(c, last, first);
        let closes = closes(c, last, first);
        self.put_run(run, own, opens, closes, next)?;
        Ok(())
    }

    /// A `~`, where strikethrough is read: one or two are a run, more are text.
    pub(crate) fn tilde(&mut self, entities: &Entities, behind: &'t str) -> Result<(), Memory>
        requires sound { IsReader self.old }
        requires first { chars self.old.rest.now ≡ 126 ∷ chars behind.now }
        ensures { OnOk result ((targets : Targets)
            → GoesOn entities.now targets self.old self.new) }
    {
        if !entities.strikethrough() {
            self.plain(entities, '~', behind);
            return Ok(());
        }
        self.tildes(behind)
    }

    fn tildes(&mut self, behind: &'t str) -> Result<(), Memory>
        requires sound { IsReader self.old }
        requires first { chars self.old.rest.now ≡ 126 ∷ chars behind.now }
        ensures { OnOk result ((rules : Rules) (targets : Targets) → rules.strikethrough ≡ true
            → GoesOn rules targets self.old self.new) }
    {
        let Some(second) = is(behind, '~') else {
            self.delimiters('~', Delimiter::Tilde, behind)?;
            return Ok(());
        };
        let Some(third) = is(second, '~') else {
            self.delimiters('~', Delimiter::TwoTildes, behind)?;
            return Ok(());
        };
        self.pass(behind_run(third, '~'));
        Ok(())
    }

    /// A run of delimiters for the text up to this rest.
    fn put_run(
        &mut self,
        run: &'t str,
        own: Delimiter,
        opens: bool,
        closes: bool,
        rest: &'t str,
    ) -> Result<(), Memory>
        requires sound { IsReader self.old }
        requires text { IsRunText own (chars run.now) }
        requires behind { IsRest (chars rest.now) (chars self.old.rest.now) }
        requires stands { chars run.now ≡ before (chars rest.now) (chars self.old.rest.now) }
        ensures text { OnOk result (self.new.text ≡ self.old.text) }
        ensures rest { OnOk result (self.new.rest ≡ rest.entry) }
        ensures made { (n c : ℕ) → OnOk result (IsRunOf n c (chars run.now)
            → state_made self.new ≡ Delimiters
            (record { char = c; left = suc n; length = suc n; opens = opens; closes = closes })
            ∷ state_made self.old) }
        ensures sound { OnOk result (IsReader self.new) }
    {
        self.flush()?;
        self.draft.put_run(run, own, opens, closes)?;
        self.rest = rest;
        self.plain = rest;
        Ok(())
    }
}

/// The text behind a run of this character.
pub(crate) fn behind_run(text: &str, c: char) -> &str
    ensures value { Some (chars result.now) ≡ many (λ d. c == d) (chars text.now) }
    ensures end { IsRest (chars result.now) (chars text.now) }
{
    many(text, |d| c == d)
}

/// The first character of a text, or a line ending where there is none.
fn first_or_line(text: &str) -> char
    ensures { result ≡ first_or 10 (chars text.now) }
{
    match next_char(text) {
        Some((c, _)) => c,
        None => '\n',
    }
}

/// The last character of a text, or a line ending where there is none.
pub(crate) fn last_or_line(text: &str) -> char
    ensures { result ≡ last_or 10 (chars text.now) }
{
    match last_char(text) {
        Some((_, c)) => c,
        None => '\n',
    }
}

/// Whether a run is flanking at the side of the first character.
fn is_flanking(near: char, far: char) -> bool
    ensures { result ≡ specs.is_flanking near far }
{
    !is_white(near) && (!is_punctuation(near) || (is_white(far) || is_punctuation(far)))
}

/// Whether a run of this character may open emphasis, between these two characters.
#[tactic(auto, unfolding(doc_rules::specs::Emphasis::run_between))]
fn opens(c: char, last: char, next: char) -> bool
    ensures { (n : ℕ) → result ≡ (run_between c n last next).opens }
{
    is_flanking(next, last) && (c != '_' || !is_flanking(last, next) || is_punctuation(last))
}

/// Whether a run of this character may close emphasis, between these two characters.
#[tactic(auto, unfolding(doc_rules::specs::Emphasis::run_between))]
fn closes(c: char, last: char, next: char) -> bool
    ensures { (n : ℕ) → result ≡ (run_between c n last next).closes }
{
    is_flanking(last, next) && (c != '_' || !is_flanking(next, last) || is_punctuation(next))
}
