//! Code spans, autolinks and raw HTML (CommonMark 0.31.2, sections 6.1, 6.5 and 6.6).
ghost use Rattle.std.specs.Prelude.{◌≡◌, ◌++◌, ◌∷◌, [], chars, Some, OnOk, IfOk, MatchOption};
ghost use Rattle.doc_rules.specs.Rules.{Rules};
ghost use Rattle.doc_rules.specs.Inlines.{literals, onto};
ghost use Rattle.doc_rules.specs.Reading.{autolink};
ghost use Rattle.doc_rules.specs.Reading as specs;
ghost use Rattle.doc_rules.specs.Parsers.{many};
ghost use Rattle.doc_rules.specs.Rests.{IsRest};
ghost use Rattle.doc_refs_parts.specs.Targets.{Targets};
ghost use Rattle.doc_inlines_marks.specs.Views.{span_shown};
ghost use Rattle.doc_inlines_emphasis.specs.Views.{items_of};
ghost use Rattle.doc_inlines_marks.specs.PlaceSteps.{StandsBefore};
ghost use Rattle.doc_inlines_marks.specs.FoundSteps.{slice_of, enclosing_of};
ghost use Rattle.doc_inlines_marks.specs.Reads.{enclosed_read};
ghost use Rattle.doc_inlines.specs.DraftSteps.{IsDraft, made_of};
ghost use Rattle.doc_inlines.specs.ReaderSteps.{IsReader, GoesOn, state_made};
ghost use Rattle.doc_inlines.specs.ReaderSteps as readers;
ghost use Rattle.doc_inlines.specs.PieceSteps.{AddsText, IsPiece};

use crate::draft::Draft;
use crate::reader::Reader;
use doc_inlines_marks::Enclosed;
use doc_inlines_marks::arena::Arena;
use doc_inlines_marks::mark_ref::{MarkRef, SpanRef};
use doc_inlines_marks::target_ref::TargetRef;
use doc_lines::scan::character::next_char;
use doc_lines::scan::front::front;
use doc_lines::scan::run::many;
use doc_page_parts::failure::Memory;

impl<'t, 'r> Reader<'t, 'r> {
    /// A code span, or a run of backticks without an end, which is text.
    pub(crate) fn backticks(&mut self, behind: &'t str) -> Result<(), Memory>
        requires sound { IsReader self.old }
        requires first { chars self.old.rest.now ≡ 96 ∷ chars behind.now }
        ensures { OnOk result ((rules : Rules) (targets : Targets)
            → GoesOn rules targets self.old self.new) }
    {
        let (found, next) = self.backticks.code_span(behind)?;
        match found {
            Some(code) => {
                self.put(MarkRef::Code(code), next)?;
                Ok(())
            }
            None => {
                self.pass(next);
                Ok(())
            }
        }
    }

    /// An autolink, raw HTML, or a `<` that is text.
    pub(crate) fn left_angle(&mut self, behind: &'t str) -> Result<(), Memory>
        requires sound { IsReader self.old }
        requires first { chars self.old.rest.now ≡ 60 ∷ chars behind.now }
        ensures { OnOk result ((rules : Rules) (targets : Targets)
            → GoesOn rules targets self.old self.new) }
    {
        match self.missing.enclosed(self.rest) {
            Some((found, next)) => {
                self.put_enclosed(found, next)?;
                Ok(())
            }
            None => {
                self.alone('<', behind)?;
                Ok(())
            }
        }
    }

    /// What a `<` encloses, which stands in front of this rest.
    fn put_enclosed(&mut self, found: Enclosed<'t>, rest: &'t str) -> Result<(), Memory>
        requires sound { IsReader self.old }
        requires behind { IsRest (chars rest.now) (chars self.old.rest.now) }
        requires stands { StandsBefore (slice_of found) (chars rest.now) (chars self.old.rest.now) }
        ensures text { OnOk result (self.new.text ≡ self.old.text) }
        ensures rest { OnOk result (self.new.rest ≡ rest.entry) }
        ensures made { OnOk result (state_made self.new
            ≡ enclosed_read (state_made self.old) (enclosing_of found.entry)) }
        ensures sound { OnOk result (IsReader self.new) }
    {
        match found {
            Enclosed::Raw(html) => {
                self.put(MarkRef::Raw(html), rest)?;
                Ok(())
            }
            Enclosed::Uri(address) => {
                self.put_autolink("", address, rest)?;
                Ok(())
            }
            Enclosed::Mail(address) => {
                self.put_autolink("mailto:", address, rest)?;
                Ok(())
            }
        }
    }

    /// A link over an address, which stands in front of this rest. Its destination is the address behind this scheme.
    pub(crate) fn put_autolink(
        &mut self,
        scheme: &'static str,
        address: &'t str,
        rest: &'t str,
    ) -> Result<(), Memory>
        requires sound { IsReader self.old }
        requires behind { IsRest (chars rest.now) (chars self.old.rest.now) }
        requires stands { StandsBefore (chars address.now) (chars rest.now)
            (chars self.old.rest.now) }
        ensures text { OnOk result (self.new.text ≡ self.old.text) }
        ensures rest { OnOk result (self.new.rest ≡ rest.entry) }
        ensures made { OnOk result (state_made self.new
            ≡ autolink (chars scheme.now ++ chars address.now) (chars address.now)
            (state_made self.old)) }
        ensures sound { OnOk result (IsReader self.new) }
    {
        let span: SpanRef<'t, 'r> = autolink_span(self.arena, scheme, address)?;
        self.flush()?;
        self.draft.put(MarkRef::Start(span))?;
        self.draft.put_text(address)?;
        self.draft.put(MarkRef::End(span))?;
        self.rest = rest;
        self.plain = rest;
        Ok(())
    }
}

impl<'t, 'r> Draft<'t, 'r> {
    /// A text behind all. What HTML writes otherwise has a mark of its own.
    fn put_text(&mut self, text: &'t str) -> Result<(), Memory>
        requires { IsDraft self.old }
        ensures items { OnOk result (AddsText (items_of self.old.marks) (items_of self.new.marks)
            (chars text.now)) }
        ensures brackets { OnOk result (self.new.brackets.items ≡ self.old.brackets.items) }
        ensures made { OnOk result (made_of self.new
            ≡ onto (literals (chars text.now)) (made_of self.old)) }
        ensures sound { OnOk result (IsDraft self.new) }
    {
        let mut rest = text;
        'pieces: while let Some(next) = behind_piece(rest) {
            let piece = front(rest, next);
            self.put(MarkRef::Text(piece))?;
            rest = next;
        }
        Ok(())
    }
}

/// The text behind its first character, if HTML writes that otherwise, or else behind the first characters that it writes as they are.
fn behind_piece(text: &str) -> Option<&str>
    ensures { MatchOption result (chars text.now ≡ [])
        (λ rest. IsPiece (chars text.now) (chars rest.now)) }
{
    let (c, behind) = next_char(text)?;
    if is_uncut(c) {
        Some(behind_uncut(behind))
    } else {
        Some(behind)
    }
}

/// The text behind the characters at its front that HTML writes as they are.
fn behind_uncut(text: &str) -> &str
    ensures value { Some (chars result.now) ≡ many readers.is_uncut (chars text.now) }
    ensures end { IsRest (chars result.now) (chars text.now) }
{
    many(text, is_uncut)
}

/// Whether HTML writes the character as it is.
fn is_uncut(c: char) -> bool
    ensures { result ≡ readers.is_uncut c }
{
    !matches!(c, '&' | '<' | '>' | '"')
}

/// A link to this scheme with this address behind it.
#[tactic(auto, unfolding(doc_inlines_marks::specs::Views::span_shown, doc_inlines_marks::specs::Targets::named))]
fn autolink_span<'t, 'r>(
    arena: &'r Arena,
    scheme: &'static str,
    address: &'t str,
) -> Result<SpanRef<'t, 'r>, Memory>
    ensures { IfOk result (λ span. span_shown span
        ≡ specs.autolink_span (chars scheme.now ++ chars address.now)) }
{
    Ok(SpanRef::Link(arena.target(TargetRef::Address { scheme, address })?))
}
