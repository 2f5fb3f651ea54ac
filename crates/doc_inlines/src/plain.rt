//! Characters that begin nothing: a table of 256 bytes passes over them, and what begins something in an extension alone (GFM 0.29,
//! sections 6.5 and 6.9) is asked for where one is read. Spaces go with them unless a line ends behind, and a `>` or a `"`
//! is text in a mark of its own, since HTML writes it otherwise.
ghost use Rattle.std.specs.Prelude.{◌≡◌, ◌==◌, ◌||◌, ℕ, true, false, [], ◌∷◌, ◌++◌, chars, OnOk, MatchOption};
ghost use Rattle.doc_rules.specs.Characters.{last_or};
ghost use Rattle.doc_rules.specs.Rules.{Rules};
ghost use Rattle.doc_rules.specs.Inlines.{Literal};
ghost use Rattle.doc_rules.specs.Reading.{Other, kinds, kind_in};
ghost use Rattle.doc_refs_parts.specs.Targets.{Targets};
ghost use Rattle.doc_rules.specs.Rests.{IsRest};
ghost use Rattle.doc_lines.specs.RestSteps.{IsCutBefore};
ghost use Rattle.doc_inlines.specs.ReadingSteps.{is_plain, begins_always, begins_by, begins_something};
ghost use Rattle.doc_inlines.specs.PlainSteps.{IsPlainEnd, IsPlainStop, IsWithoutSpaces, StandsInFront};
ghost use Rattle.doc_inlines.specs.ReaderSteps.{IsReader, GoesOn, IsPlainRun, ReadsAs, is_uncut, state_made};

use crate::reader::Reader;
use doc_inlines_marks::mark_ref::MarkRef;
use doc_lines::entities::Entities;
use doc_lines::scan::character::{is, last_char};
use doc_lines::scan::front::front;
use doc_lines::scan::until::until;
use doc_page_parts::failure::Memory;

impl<'t, 'r> Reader<'t, 'r> {
    /// The first character, which is text, in a mark of its own.
    pub(crate) fn alone(&mut self, c: char, behind: &'t str) -> Result<(), Memory>
        requires sound { IsReader self.old }
        requires first { chars self.old.rest.now ≡ c ∷ chars behind.now }
        ensures { OnOk result ((rules : Rules) (targets : Targets)
            → ReadsAs rules targets self.old c (chars behind.now) (Literal c ∷ state_made self.old)
            0 → GoesOn rules targets self.old self.new) }
    {
        let own = front(self.rest, behind);
        self.put(MarkRef::Text(own), behind)?;
        Ok(())
    }

    /// A `>` or a `"`, which is text in a mark of its own.
    pub(crate) fn other(&mut self, c: char, behind: &'t str) -> Result<(), Memory>
        requires sound { IsReader self.old }
        requires first { chars self.old.rest.now ≡ c ∷ chars behind.now }
        requires other { kind_in kinds c ≡ Other }
        ensures { OnOk result ((rules : Rules) (targets : Targets)
            → GoesOn rules targets self.old self.new) }
    {
        self.alone(c, behind)?;
        Ok(())
    }

    /// Plain text: all up to a character that begins something, without spaces before a line ending.
    pub(crate) fn plain(&mut self, entities: &Entities, c: char, behind: &'t str)
        requires sound { IsReader self.old }
        requires first { chars self.old.rest.now ≡ c ∷ chars behind.now }
        requires plain { is_plain entities.now c ≡ true }
        requires other { (c == 32) ≡ false }
        ensures { (targets : Targets) → GoesOn entities.now targets self.old self.new }
    {
        self.pass_plain(entities, behind_plain(entities, behind));
    }

    /// The first character, which is text that HTML writes as it is.
    pub(crate) fn literal(&mut self, c: char, behind: &'t str)
        requires sound { IsReader self.old }
        requires first { chars self.old.rest.now ≡ c ∷ chars behind.now }
        requires uncut { is_uncut c ≡ true }
        ensures { (rules : Rules) (targets : Targets)
            → ReadsAs rules targets self.old c (chars behind.now) (Literal c ∷ state_made self.old)
            0 → GoesOn rules targets self.old self.new }
    {
        self.pass(behind);
    }

    /// Plain characters up to this rest.
    pub(crate) fn pass_plain(&mut self, _entities: &Entities, rest: &'t str)
        requires sound { IsReader self.old }
        requires run { IsPlainRun _entities.now (chars self.old.rest.now) (chars rest.now) }
        ensures { (targets : Targets) → GoesOn _entities.now targets self.old self.new }
    {
        self.pass(rest);
    }
}

/// The text behind plain characters, up to one that begins something. Spaces before a line ending are that one's.
pub(crate) fn behind_plain<'t>(entities: &Entities, text: &'t str) -> &'t str
    ensures { IsPlainStop entities.now (chars text.now) (chars result.now) }
{
    let rest = until_something(entities, text);
    match is(rest, '\n') {
        Some(_) => plain_end(text, rest),
        None => rest,
    }
}

/// The text from the first character on that begins something, or its end where none does.
fn until_something<'t>(entities: &Entities, text: &'t str) -> &'t str
    ensures { IsCutBefore (begins_something entities.now) (chars text.now) (chars result.now) }
{
    let strikes = entities.strikethrough();
    let links = entities.bare_links();
    if strikes || links {
        return until(text, |byte| begins_also(strikes, links, byte));
    }
    until(text, begins_always)
}

/// The text behind plain characters, up to this rest, and without the spaces at their end.
fn plain_end<'t>(text: &'t str, rest: &str) -> &'t str
    requires { IsRest (chars rest.now) (chars text.now) }
    ensures { (rules : Rules)
        → IsCutBefore (begins_something rules) (chars text.now) (chars rest.now)
        → IsPlainEnd rules (chars text.now) (chars result.now) }
{
    text_behind(text, without_spaces(front(text, rest)))
}

// Each character that begins something without any extension stands at its own place, and a dot at every other place.
static BEGINNINGS: [u8; 256] = *b"\
    ..........\n.....................\
    .!\"...&...*.................<.>.\
    ...........................[\\]._\
    `...............................\
    ................................\
    ................................\
    ................................\
    ................................";

/// Whether a character begins something without any extension, or HTML writes it otherwise. A space is none of these.
fn begins_always(byte: u8) -> bool
    ensures { result ≡ begins_always byte }
{
    BEGINNINGS[byte as usize] != b'.'
}

// The same where what begins something in an extension alone stands at its own place, too.
static ALL_BEGINNINGS: [u8; 256] = *b"\
    ..........\n.....................\
    .!\"...&...*.................<.>.\
    ......F.H..................[\\]._\
    `.....f.h..............w......~.\
    ................................\
    ................................\
    ................................\
    ................................";

/// Whether a character begins something without any extension, or in one.
fn may_begin(byte: u8) -> bool
    ensures { result ≡ (begins_always byte || begins_by true true byte) }
{
    ALL_BEGINNINGS[byte as usize] != b'.'
}

/// Whether it does so, or in an extension, where strikethrough and bare links are read or not.
fn begins_also(strikes: bool, links: bool, byte: u8) -> bool
    ensures { result ≡ (begins_always byte || begins_by strikes links byte) }
{
    if !may_begin(byte) {
        return false;
    }
    begins_always(byte)
        || (strikes && byte == b'~' || links && matches!(byte, b'w' | b'h' | b'H' | b'f' | b'F'))
}

/// The text without the spaces at its end.
fn without_spaces(text: &str) -> &str
    ensures { IsWithoutSpaces (chars text.now) (chars result.now) }
{
    let mut words = text;
    'spaces: while let Some(before) = before_space(words) {
        words = before;
    }
    words
}

/// The text before a space at its end.
fn before_space(text: &str) -> Option<&str>
    ensures { MatchOption result ((last_or 0 (chars text.now) == 32) ≡ false)
        (λ before. chars text.now ≡ chars before.now ++ (32 ∷ [])) }
{
    let Some((before, c)) = last_char(text) else {
        return None;
    };
    if c == ' ' { Some(before) } else { None }
}

/// What stands behind the front of a text. It takes no time over the text.
pub(crate) fn text_behind<'t>(text: &'t str, front: &str) -> &'t str
    requires { StandsInFront (chars front.now) (chars text.now) }
    ensures { chars text.now ≡ chars front.now ++ chars result.now }
{
    &text[front.len()..]
}
