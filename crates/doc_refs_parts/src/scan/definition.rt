//! A link reference definition (CommonMark 0.31.2, section 4.7).
ghost use Rattle.std.specs.Prelude.{◌≡◌, chars};
ghost use Rattle.doc_rules.specs.Definitions.{with_title, without_title, after_destination, after_label, definition_source};
ghost use Rattle.doc_refs_parts.specs.Sources.{source_of};

use super::destination::destination;
use super::inside::inside;
use super::label::label;
use super::line::{margin, rest_of_line};
use super::title::title;
use doc_lines::scan::character::is;
use doc_lines::scan::front::front;
use doc_lines::scan::white_space::{some_spacing, spacing};

/// The parts of a definition as they stand, and the text behind it: the label without its brackets, the destination and the title
/// with what they stand in.
#[derive(Clone, Copy)]
pub struct DefinitionSource<'a> {
    pub label: &'a str,
    pub dest: &'a str,
    pub title: Option<&'a str>,
    pub rest: &'a str,
}

/// The definition at the front of a text, with the line ending after it. Where a title on a line of its own fails, the definition
/// stands without it.
#[tactic(auto, unfolding(doc_rules::specs::Definitions::definition_source), using(crate::proofs::Rests::label_rest))]
pub fn definition_source(text: &str) -> Option<DefinitionSource>
    ensures { source_of result ≡ definition_source (chars text.now) }
{
    let start = margin(text);
    let behind = label(start)?;
    after_label(inside(front(start, behind)), behind)
}

/// `:`, spacing, a destination and what stands behind it.
#[tactic(auto, unfolding(doc_rules::specs::Definitions::after_label), using(crate::proofs::Rests::destination_rest))]
fn after_label<'a>(label: &'a str, text: &'a str) -> Option<DefinitionSource<'a>>
    ensures { source_of result ≡ after_label (chars label.now) (chars text.now) }
{
    let start = spacing(is(text, ':')?);
    let behind = destination(start)?;
    after_destination(label, front(start, behind), behind)
}

/// A title that spacing sets off, or nothing, to the end of the line.
#[tactic(auto, unfolding(doc_rules::specs::Definitions::after_destination))]
fn after_destination<'a>(
    label: &'a str,
    dest: &'a str,
    text: &'a str,
) -> Option<DefinitionSource<'a>>
    ensures { source_of result ≡ after_destination (chars label.now) (chars dest.now)
        (chars text.now) }
{
    let Some(start) = some_spacing(text) else {
        return without_title(label, dest, text);
    };
    if let Some(found) = with_title(label, dest, start) {
        return Some(found);
    }
    without_title(label, dest, text)
}

#[tactic(auto, unfolding(doc_rules::specs::Definitions::with_title), using(crate::proofs::Rests::title_rest))]
fn with_title<'a>(label: &'a str, dest: &'a str, text: &'a str) -> Option<DefinitionSource<'a>>
    ensures { source_of result ≡ with_title (chars label.now) (chars dest.now) (chars text.now) }
{
    let behind = title(text)?;
    let rest = rest_of_line(behind)?;
    Some(DefinitionSource {
        label,
        dest,
        title: Some(front(text, behind)),
        rest,
    })
}

#[tactic(auto, unfolding(doc_rules::specs::Definitions::without_title))]
fn without_title<'a>(label: &'a str, dest: &'a str, text: &'a str) -> Option<DefinitionSource<'a>>
    ensures { source_of result ≡ without_title (chars label.now) (chars dest.now) (chars text.now) }
{
    let rest = rest_of_line(text)?;
    Some(DefinitionSource {
        label,
        dest,
        title: None,
        rest,
    })
}
