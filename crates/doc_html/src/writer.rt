//! Where HTML is written.
ghost use Rattle.std.specs.Prelude.{◌≡◌, [], ◌∷◌, true, chars, OnOk};
ghost use Rattle.doc_rules.specs.Escaping.{html_escape};
ghost use Rattle.doc_rules.specs.Html.{characters, LinkTag, ImageNote};
ghost use Rattle.doc_rules.specs.PlainTexts.{plain_text};
ghost use Rattle.doc_inlines_marks.specs.Targets.{named};
ghost use Rattle.doc_inlines_marks.specs.Views.{inlines_shown};
ghost use Rattle.doc_html.specs.ProgressSteps.{Progress, Goes, Writes, on_new_line, text_met, heading_met};
ghost use Rattle.doc_html.specs.InlineSteps.{is_ascii};

use doc_inlines_marks::mark_ref::MarkRef;
use doc_inlines_marks::target_ref::TargetRef;
use doc_page_parts::failure::Memory;

/// What HTML is written into. It answers only where memory runs out.
pub(crate) trait Writer {
    /// What it holds is what this progress says.
    ghost holds: { Self → Progress → Type 0 };

    /// Writes a text as it stands.
    fn text(&mut self, text: &str) -> Result<(), Memory>
        ensures { OnOk result (Writes holds self.old self.new (characters (chars text.now))) };

    /// Writes a text with `&`, `<`, `>` and `"` as references.
    fn escaped(&mut self, text: &str) -> Result<(), Memory>
        ensures { OnOk result (Writes holds self.old self.new
            (characters (html_escape (chars text.now)))) };

    /// Writes the opening tag of a link.
    fn link(&mut self, target: TargetRef) -> Result<(), Memory>
        ensures { OnOk result (Writes holds self.old self.new
            (LinkTag (named target.entry) ∷ [])) };

    /// Notes an image with this destination, of which nothing is written.
    fn image(&mut self, dest: &str) -> Result<(), Memory>
        ensures { OnOk result (Writes holds self.old self.new
            (ImageNote (chars dest.now) ∷ [])) };

    /// Begins a line, where something stands on this one.
    fn new_line(&mut self) -> Result<(), Memory>
        ensures { OnOk result (Goes holds self.old self.new on_new_line) };

    /// A code block with this content is met.
    fn meet_text(&mut self, text: &str) -> Result<(), Memory>
        ensures { OnOk result (Goes holds self.old self.new (text_met (chars text.now))) };

    /// A paragraph or a cell of a table with these inlines is met.
    fn meet_paragraph(&mut self, marks: &[MarkRef]) -> Result<(), Memory>
        ensures { OnOk result (Goes holds self.old self.new
            (text_met (plain_text (inlines_shown marks.now)))) };

    /// A heading with these inlines is met, and its anchor written where headings get anchors.
    fn meet_heading(&mut self, level: u8, marks: &[MarkRef]) -> Result<(), Memory>
        ensures { OnOk result (Goes holds self.old self.new
            (heading_met level (plain_text (inlines_shown marks.now)))) };
}

/// Writes a text of ASCII characters as it stands.
pub(crate) fn markup<W: Writer>(writer: &mut W, text: &str) -> Result<(), Memory>
    requires { is_ascii text.now ≡ true }
    ensures { OnOk result (Writes W.holds writer.old writer.new (characters text.now)) }
{
    writer.text(text)
}
