//! HTML blocks (CommonMark 0.31.2, section 4.6): the kind of block that a line begins, and where it ends.
ghost use Rattle.std.specs.Prelude.{◌≡◌, chars};
ghost use Rattle.doc_rules.specs.HtmlStarts.{may_interrupt_paragraph, ends_before_blank, ends_html};
ghost use Rattle.doc_blocks_starts.specs.HtmlKinds.{kind_of};

mod end;
mod names;
mod start;

pub use start::html_start;

/// The kinds of HTML blocks, 1 to 7 in the specification's order.
#[derive(Clone, Copy, Debug, PartialEq, Eq)]
pub enum HtmlKind {
    /// Of `<pre>`, `<script>`, `<style>` and `<textarea>`.
    RawText,
    Comment,
    /// A processing instruction.
    Instruction,
    Declaration,
    /// A CDATA section.
    Cdata,
    /// Of an element with one of 62 names.
    Element,
    /// Of a complete tag alone on its line.
    AnyTag,
}

impl HtmlKind {
    /// Whether a line may begin such a block inside a paragraph.
    #[tactic(auto, unfolding(doc_rules::specs::HtmlStarts::may_interrupt_paragraph))]
    pub fn may_interrupt_paragraph(self) -> bool
        ensures { result ≡ may_interrupt_paragraph (kind_of self) }
    {
        !matches!(self, HtmlKind::AnyTag)
    }

    /// Whether such a block ends before a blank line. The others go on over blank lines to the line that [`HtmlKind::ends_with`]
    /// names.
    #[tactic(auto, unfolding(doc_rules::specs::HtmlStarts::ends_before_blank))]
    pub fn ends_before_blank(self) -> bool
        ensures { result ≡ ends_before_blank (kind_of self) }
    {
        matches!(self, HtmlKind::Element | HtmlKind::AnyTag)
    }

    /// Whether such a block ends with this line, which may be its first one. The whole line counts, with its indentation.
    #[tactic(auto, unfolding(doc_rules::specs::HtmlStarts::ends_html))]
    pub fn ends_with(self, line: &str) -> bool
        ensures { result ≡ ends_html (kind_of self) (chars line.now) }
    {
        match self {
            HtmlKind::RawText => end::holds_raw_text_end(line),
            HtmlKind::Comment => end::holds(line, b"-->"),
            HtmlKind::Instruction => end::holds(line, b"?>"),
            HtmlKind::Declaration => end::holds_right_angle(line),
            HtmlKind::Cdata => end::holds(line, b"]]>"),
            HtmlKind::Element | HtmlKind::AnyTag => false,
        }
    }
}
