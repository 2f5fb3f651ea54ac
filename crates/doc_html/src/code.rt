//! The text of code spans (CommonMark 0.31.2, section 6.1).
ghost use Rattle.std.specs.Prelude.{◌≡◌, [], ◌∷◌, ◌++◌, chars, IfNone, IfSome, OnOk, not, ◌==◌};
ghost use Rattle.doc_rules.specs.CodeSpans.{spaced};
ghost use Rattle.doc_rules.specs.Escaping.{html_escape};
ghost use Rattle.doc_rules.specs.Html.{characters};
ghost use Rattle.doc_html.specs.ProgressSteps.{Writes};

use crate::writer::{Writer, markup};
use doc_lines::scan::character::next_char;
use doc_lines::scan::front::front;
use doc_lines::scan::run::many;
use doc_page_parts::failure::Memory;

/// Writes a text, escaped, with a space for each line ending.
pub(crate) fn push_spaced<W: Writer>(writer: &mut W, text: &str) -> Result<(), Memory>
    ensures { OnOk result (Writes W.holds writer.old writer.new
        (characters (html_escape (spaced (chars text.now))))) }
{
    let mut rest = text;
    'lines: while let Some((line, behind)) = first_line(rest) {
        writer.escaped(line)?;
        push_space(writer)?;
        rest = behind;
    }
    writer.escaped(rest)?;
    Ok(())
}

/// Writes a space.
#[tactic(auto, unfolding(doc_rules::specs::Escaping::html_escape, doc_rules::specs::Escaping::escaped_char))]
pub(crate) fn push_space<W: Writer>(writer: &mut W) -> Result<(), Memory>
    ensures { OnOk result (Writes W.holds writer.old writer.new
        (characters (html_escape (32 ∷ [])))) }
{
    markup(writer, " ")
}

/// Writes nothing.
pub(crate) fn push_nothing<W: Writer>(_writer: &mut W) -> Result<(), Memory>
    ensures { OnOk result (Writes W.holds _writer.old _writer.new (characters (html_escape []))) }
{
    Ok(())
}

/// What stands before the first line ending, and what stands behind it.
pub(crate) fn first_line(text: &str) -> Option<(&str, &str)>
    ensures line { IfSome result (λ found. spaced (chars text.now) ≡ chars found.0.now ++ 32
        ∷ spaced (chars found.1.now)) }
    ensures none { IfNone result (spaced (chars text.now) ≡ chars text.now) }
{
    let behind = many(text, is_in_line);
    let (_, after) = next_char(behind)?;
    Some((front(text, behind), after))
}

fn is_in_line(c: char) -> bool
    ensures { result ≡ not (c == 10) }
{
    c != '\n'
}
