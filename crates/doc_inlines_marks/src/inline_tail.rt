//! Inline links: `(`, a destination, a title and `)` behind the `]` (CommonMark 0.31.2, section 6.3).
ghost use Rattle.std.specs.Prelude.{◌≡◌, chars, IfSome};
ghost use Rattle.doc_rules.specs.Rests.{IsRest};
ghost use Rattle.doc_rules.specs.Rules.{Rules};
ghost use Rattle.doc_rules.specs.Destinations.{target_of};
ghost use Rattle.doc_rules.specs.Links.{closed, title_tail, destination_tail, inline_tail};
ghost use Rattle.doc_refs_parts.specs.Sources.{text_shown};
ghost use Rattle.doc_inlines_marks.specs.TailSteps.{source_tail};

use doc_lines::scan::character::is;
use doc_lines::scan::front::front;
use doc_lines::scan::white_space::{some_spacing, spacing};
use doc_refs::scan::destination::destination;
use doc_refs::scan::title::title;

/// The parts of an inline tail as they stand, and the text behind it: the destination and the title with what they stand in.
#[derive(Clone, Copy)]
pub struct TailSource<'t> {
    pub dest: &'t str,
    pub title: Option<&'t str>,
    pub rest: &'t str,
}

/// The inline tail at the front of a text. A destination may be missing only where the title is too, which is this project's choice.
#[tactic(auto, unfolding(doc_rules::specs::Links::inline_tail), using(doc_refs_parts::proofs::Rests::destination_rest))]
pub fn inline_tail(rest: &str) -> Option<TailSource>
    ensures value { (rules : Rules)
        → source_tail rules result ≡ inline_tail rules (chars rest.now) }
    ensures end { IfSome result (λ source. IsRest (chars source.rest.now) (chars rest.now)) }
{
    let start = spacing(is(rest, '(')?);
    match destination(start) {
        Some(behind) => destination_tail(front(start, behind), behind),
        None => closed("", None, start),
    }
}

/// Behind a destination: a title that spacing sets off, or none, and the `)`.
#[tactic(auto, unfolding(doc_rules::specs::Links::destination_tail), using(doc_refs_parts::proofs::Rests::title_rest))]
fn destination_tail<'t>(dest: &'t str, text: &'t str) -> Option<TailSource<'t>>
    ensures value { (rules : Rules)
        → source_tail rules result ≡ destination_tail rules (chars dest.now) (chars text.now) }
    ensures end { IfSome result (λ source. IsRest (chars source.rest.now) (chars text.now)) }
{
    let Some(start) = some_spacing(text) else {
        return closed(dest, None, text);
    };
    match title(start) {
        Some(behind) => closed(dest, Some(front(start, behind)), behind),
        None => closed(dest, None, text),
    }
}

/// Spacing and the `)`.
#[tactic(auto, unfolding(doc_rules::specs::Links::closed))]
fn closed<'t>(dest: &'t str, title: Option<&'t str>, text: &'t str) -> Option<TailSource<'t>>
    ensures value { (rules : Rules)
        → source_tail rules result ≡ closed
        (target_of rules (chars dest.now) (text_shown title.entry)) (chars text.now) }
    ensures end { IfSome result (λ source. IsRest (chars source.rest.now) (chars text.now)) }
{
    let rest = is(spacing(text), ')')?;
    Some(TailSource { dest, title, rest })
}
