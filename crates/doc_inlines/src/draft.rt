//! What was made of a text so far: the marks, and the brackets among them that are open.
//!
//! A link holds no links: once one is made, no bracket that is open then begins one. They are the first so many on the stack, so that is
//! one number, `dead`. An image may hold links, and a bracket of an image may still begin one.
ghost use Rattle.std.specs.Prelude.{◌≡◌, ℕ, suc, Bool, true, false, [], ◌∷◌, ◌++◌, chars, reverse, OnOk, IfOk, MatchOption, nat_le, ◌||◌, if◌then◌else◌};
ghost use Rattle.doc_rules.specs.Inlines.{Delimiters, Open, onto};
ghost use Rattle.doc_rules.specs.Inlines as images;
ghost use Rattle.doc_rules.specs.Characters as rules;
ghost use Rattle.doc_rules.specs.Links.{linked};
ghost use Rattle.doc_rules.specs.Emphasis.{emphasis_of};
ghost use Rattle.doc_rules.specs.Reading.{has_live_bracket};
ghost use Rattle.doc_inlines_marks.specs.Slices.{AreSlices, AreCut};
ghost use Rattle.doc_inlines_marks.specs.Targets.{named};
ghost use Rattle.doc_inlines_marks.specs.Views.{inlines_in, inlines_shown, span_shown};
ghost use Rattle.doc_inlines_marks.specs.declared.mark_ref.MarkRef.TheVariants.{Text};
ghost use Rattle.doc_inlines_emphasis.specs.Views.{items_of, runs_in};
ghost use Rattle.doc_inlines_emphasis.specs.Texts.{IsRunText, AddsEach};
ghost use Rattle.doc_inlines.specs.DraftSteps.{IsDraft, holds_image, made_of, AreOpen, IsRunOf, codes_of_bracket, AddsBracket, IsPopped, last_of};

use crate::bracket::Bracket;
use doc_inlines_emphasis::{Delimiter, Marks, Place};
use doc_inlines_marks::mark_ref::{MarkRef, SpanRef};
use doc_inlines_marks::target_ref::TargetRef;
use doc_page_parts::failure::Memory;
use doc_page_parts::heap::{Heap, Vec};

/// The marks that were made of a text so far, and the brackets among them that are open. Of the brackets the first `dead` begin no
/// link, unless they are images'.
#[derive(Drop)]
pub(crate) struct Draft<'t, 'r> {
    pub(crate) marks: Marks<'t, 'r>,
    pub(crate) brackets: Vec<Bracket<'t>>,
    pub(crate) dead: usize,
}

impl<'t, 'r> Draft<'t, 'r> {
    /// Nothing is made yet. Takes no memory.
    pub(crate) fn new(heap: Heap) -> Self
        ensures items { items_of result.marks ≡ [] }
        ensures brackets { result.brackets.items ≡ [] }
        ensures made { made_of result ≡ [] }
        ensures sound { IsDraft result }
    {
        Draft {
            marks: Marks::new(heap),
            brackets: Vec::new(heap),
            dead: 0,
        }
    }

    /// Lets all go, and keeps the room.
    pub(crate) fn clear(&mut self)
        ensures items { items_of self.new.marks ≡ [] }
        ensures brackets { self.new.brackets.items ≡ [] }
        ensures made { made_of self.new ≡ [] }
        ensures sound { IsDraft self.new }
    {
        self.marks.clear();
        self.brackets.clear();
        self.dead = 0;
    }

    /// A mark behind all.
    pub(crate) fn put(&mut self, mark: MarkRef<'t, 'r>) -> Result<(), Memory>
        requires { IsDraft self.old }
        ensures items { OnOk result (items_of self.new.marks ≡ items_of self.old.marks
            ++ (mark.entry ∷ [])) }
        ensures brackets { OnOk result (self.new.brackets.items ≡ self.old.brackets.items) }
        ensures made { OnOk result (made_of self.new
            ≡ onto (inlines_in mark.entry) (made_of self.old)) }
        ensures sound { OnOk result (IsDraft self.new) }
    {
        self.marks.push(mark)?;
        Ok(())
    }

    /// A run of delimiters behind all: each has a mark of its own.
    pub(crate) fn put_run(
        &mut self,
        text: &'t str,
        own: Delimiter,
        opens: bool,
        closes: bool,
    ) -> Result<(), Memory>
        requires sound { IsDraft self.old }
        requires text { IsRunText own (chars text.now) }
        ensures items { OnOk result (AddsEach (items_of self.old.marks) (items_of self.new.marks)
            (chars text.now)) }
        ensures brackets { OnOk result (self.new.brackets.items ≡ self.old.brackets.items) }
        ensures made { (n c : ℕ) → OnOk result (IsRunOf n c (chars text.now)
            → made_of self.new ≡ Delimiters
            (record { char = c; left = suc n; length = suc n; opens = opens; closes = closes })
            ∷ made_of self.old) }
        ensures sound { OnOk result (IsDraft self.new) }
    {
        self.marks.push_run(text, own, opens, closes)?;
        Ok(())
    }

    /// A bracket behind all, whose text is `text`, before the text `behind`.
    pub(crate) fn open(&mut self, text: &'t str, image: bool, behind: &'t str) -> Result<(), Memory>
        requires sound { IsDraft self.old }
        requires text { chars text.now ≡ codes_of_bracket image }
        ensures items { OnOk result (items_of self.new.marks ≡ items_of self.old.marks
            ++ (Text text.entry ∷ [])) }
        ensures brackets { OnOk result
            (AddsBracket self.old.brackets.items self.new.brackets.items (chars behind.now)) }
        ensures made { OnOk result (made_of self.new
            ≡ Open (record { image = image; live = true; behind = chars behind.now })
            ∷ made_of self.old) }
        ensures sound { OnOk result (IsDraft self.new) }
    {
        let place = self.marks.place();
        let images = image || self.has_image();
        self.brackets.push(Bracket {
            place,
            image,
            images,
            behind,
        })?;
        self.marks.push(MarkRef::Text(text))?;
        Ok(())
    }

    /// Whether an image's bracket is open.
    fn has_image(&self) -> bool
        requires { IsDraft self.now }
        ensures { result ≡ holds_image (reverse self.now.brackets.items) }
    {
        let Some(last) = self.brackets.as_slice().last() else {
            return false;
        };
        last.images
    }

    /// Whether a bracket is open that may begin a link or an image.
    pub(crate) fn has_live_bracket(&self) -> bool
        requires { IsDraft self.now }
        ensures { result ≡ has_live_bracket (made_of self.now) }
    {
        self.has_image() || self.dead < self.brackets.as_slice().len()
    }

    /// Closes the last bracket: its mark stays the text that it is. Also whether it may begin a link or an image.
    pub(crate) fn pop(&mut self) -> Option<(Bracket<'t>, bool)>
        requires { IsDraft self.old }
        ensures { MatchOption result (self.old.brackets.items ≡ [])
            (λ found. IsPopped self.old self.new found.0 found.1) }
    {
        let bracket = self.brackets.pop()?;
        let count = self.brackets.as_slice().len();
        let live = is_live(bracket.image, self.dead, count);
        self.dead = self.dead.min(count);
        Some((bracket, live))
    }

    /// Turns all since the bracket, which was just closed, into a link or an image. Links hold no links.
    pub(crate) fn link(
        &mut self,
        bracket: Bracket<'t>,
        target: &'r TargetRef<'t, 'r>,
    ) -> Result<(), Memory>
        requires sound { IsDraft self.old }
        requires stood { AreOpen (items_of self.old.marks) (runs_in self.old.marks)
            (self.old.brackets.items ++ (bracket ∷ [])) }
        ensures made { (live : Bool)
            → OnOk result (made_of self.new
            ≡ linked (last_of self.old bracket.entry live) (named target.now)) }
        ensures brackets { OnOk result (self.new.brackets.items ≡ self.old.brackets.items) }
        ensures slices { OnOk result ((text : rules.Text)
            → AreSlices text (items_of self.old.marks) → AreSlices text (items_of self.new.marks)) }
        ensures cut { OnOk result (AreCut (items_of self.old.marks)
            → AreCut (items_of self.new.marks)) }
        ensures sound { OnOk result (IsDraft self.new) }
    {
        let span: SpanRef<'t, 'r> = span(bracket.image, target);
        let behind = Place {
            marks: bracket.place.marks + 1,
            runs: bracket.place.runs,
        };
        self.marks.wrap(behind)?;
        self.marks.turn(bracket.place.marks, MarkRef::Start(span));
        self.marks.push(MarkRef::End(span))?;
        self.dead = dead_behind(bracket.image, self.dead, self.brackets.as_slice().len());
        Ok(())
    }

    /// Makes the emphasis, when all is read. Brackets that are still open stay the text that they are.
    pub(crate) fn finish(&mut self) -> Result<(), Memory>
        requires { IsDraft self.old }
        ensures shown { OnOk result (inlines_shown (items_of self.new.marks)
            ≡ emphasis_of (reverse (made_of self.old))) }
        ensures slices { OnOk result ((text : rules.Text)
            → AreSlices text (items_of self.old.marks) → AreSlices text (items_of self.new.marks)) }
        ensures cut { OnOk result (AreCut (items_of self.old.marks)
            → AreCut (items_of self.new.marks)) }
    {
        self.marks.wrap(Place { marks: 0, runs: 0 })?;
        Ok(())
    }
}

/// A link, or an image.
#[tactic(auto, unfolding(doc_inlines_marks::specs::Views::span_shown))]
fn span<'t, 'r>(image: bool, target: &'r TargetRef<'t, 'r>) -> SpanRef<'t, 'r>
    ensures { span_shown result
        ≡ (if image then images.Image (named target.now) else images.Link (named target.now)) }
{
    if image {
        SpanRef::Image(target)
    } else {
        SpanRef::Link(target)
    }
}

/// Whether the bracket of this number may begin a link or an image.
fn is_live(image: bool, dead: usize, number: usize) -> bool
    ensures { result ≡ (image || nat_le dead number) }
{
    image || dead <= number
}

/// How many brackets begin no link behind a link or an image.
fn dead_behind(image: bool, dead: usize, count: usize) -> usize
    ensures image { image ≡ true → result ≡ dead }
    ensures link { image ≡ false → result ≡ count }
{
    if image { dead } else { count }
}
