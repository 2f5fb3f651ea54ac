//! Autolinks and raw HTML (CommonMark 0.31.2, sections 6.5 and 6.6), with the ends that are sought no more.
ghost use Rattle.std.specs.Prelude.{◌≡◌, ◌∷◌, chars, IfSome};
ghost use Rattle.doc_rules.specs.Characters as rules;
ghost use Rattle.doc_rules.specs.Parsers.{◌or◌};
ghost use Rattle.doc_rules.specs.Tags.{comment, instruction, declaration, cdata, raw_html};
ghost use Rattle.doc_rules.specs.Rests.{IsRest};
ghost use Rattle.doc_lines.specs.RestSteps.{rest_of};
ghost use Rattle.doc_inlines_marks.specs.EndSteps.{Reads};
ghost use Rattle.doc_inlines_marks.specs.PlaceSteps.{StandsBefore};
ghost use Rattle.doc_inlines_marks.specs.Enclosed.{enclosed_at};
ghost use Rattle.doc_inlines_marks.specs.FoundSteps.{enclosed_found, slice_of};
ghost use Rattle.doc_inlines_marks.specs.ToldSteps.{TellsOfEnds};

use crate::address::{mail_address, uri_address};
use crate::enclosed::Enclosed;
use crate::seek::{declaration_start, seek, seek_close};
use doc_lines::scan::character::{is, next_char};
use doc_lines::scan::front::front;
use doc_lines::scan::tag::{closing_tag, open_tag};
use doc_lines::scan::word::word;

/// Which ends of raw HTML were sought in vain in one text. Of each kind: the text with so many bytes left, and what is shorter, has none.
#[derive(Clone, Copy)]
pub struct MissingEnds {
    /// `-->`
    comment: usize,
    /// `?>`
    instruction: usize,
    /// `>`
    declaration: usize,
    /// `]]>`
    cdata: usize,
}

impl MissingEnds {
    /// No end was sought yet.
    pub fn new() -> Self
        ensures { (whole : rules.Text) → TellsOfEnds result whole }
    {
        MissingEnds {
            comment: 0,
            instruction: 0,
            declaration: 0,
            cdata: 0,
        }
    }

    /// Where `text` begins with a `<`: what is enclosed there, and the text behind it. An end that was sought in vain in this text is
    /// sought no more.
    pub fn enclosed<'t>(&mut self, text: &'t str) -> Option<(Enclosed<'t>, &'t str)>
        ensures value { (whole : rules.Text) → TellsOfEnds self.old whole
            → IsRest (chars text.now) whole → enclosed_found result ≡ enclosed_at (chars text.now) }
        ensures told { (whole : rules.Text) → TellsOfEnds self.old whole
            → IsRest (chars text.now) whole → TellsOfEnds self.new whole }
        ensures slice { IfSome result
            (λ found. StandsBefore (slice_of found.0) (chars found.1.now) (chars text.now)) }
        ensures end { IfSome result (λ found. IsRest (chars found.1.now) (chars text.now)) }
    {
        let inside = is(text, '<')?;
        if let Some((address, after)) = uri_address(inside) {
            return Some((Enclosed::Uri(address), after));
        }
        if let Some((address, after)) = mail_address(inside) {
            return Some((Enclosed::Mail(address), after));
        }
        let after = self.raw_html(text, inside)?;
        Some((Enclosed::Raw(front(text, after)), after))
    }

    /// The raw HTML at the front, by the character behind its `<`.
    fn raw_html<'t>(&mut self, text: &'t str, inside: &str) -> Option<&'t str>
        requires { chars text.now ≡ 60 ∷ chars inside.now }
        ensures { Reads raw_html self.old self.new (chars text.now) (rest_of result) }
    {
        let (c, _) = next_char(inside)?;
        if c == '!' {
            return self.marked(text);
        }
        if c == '?' {
            return self.instruction(text);
        }
        if c == '/' {
            return closing_tag(text);
        }
        open_tag(text)
    }

    /// What begins with `<!`.
    fn marked<'t>(&mut self, text: &'t str) -> Option<&'t str>
        ensures { Reads (comment or declaration or cdata) self.old self.new (chars text.now)
            (rest_of result) }
    {
        if let Some(after) = self.comment(text) {
            return Some(after);
        }
        if let Some(after) = self.declaration(text) {
            return Some(after);
        }
        self.cdata(text)
    }

    fn comment<'t>(&mut self, text: &'t str) -> Option<&'t str>
        ensures { Reads comment self.old self.new (chars text.now) (rest_of result) }
    {
        if let Some(after) = word(text, b"<!-->") {
            return Some(after);
        }
        if let Some(after) = word(text, b"<!--->") {
            return Some(after);
        }
        let inside = word(text, b"<!--")?;
        seek(&mut self.comment, inside, b"-->")
    }

    fn instruction<'t>(&mut self, text: &'t str) -> Option<&'t str>
        ensures { Reads instruction self.old self.new (chars text.now) (rest_of result) }
    {
        let inside = word(text, b"<?")?;
        seek(&mut self.instruction, inside, b"?>")
    }

    fn declaration<'t>(&mut self, text: &'t str) -> Option<&'t str>
        ensures { Reads declaration self.old self.new (chars text.now) (rest_of result) }
    {
        let inside = declaration_start(text)?;
        seek_close(&mut self.declaration, inside)
    }

    fn cdata<'t>(&mut self, text: &'t str) -> Option<&'t str>
        ensures { Reads cdata self.old self.new (chars text.now) (rest_of result) }
    {
        let inside = word(text, b"<![CDATA[")?;
        seek(&mut self.cdata, inside, b"]]>")
    }
}
