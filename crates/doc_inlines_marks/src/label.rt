//! Labels, of which no more is looked at than a label may have.
ghost use Rattle.std.specs.Prelude.{◌≡◌, Some, chars, codes, MatchOption};
ghost use Rattle.doc_rules.specs.Characters.{none_of};
ghost use Rattle.doc_rules.specs.Labels.{label, label_text, is_label};
ghost use Rattle.doc_rules.specs.Rests.{IsRest};
ghost use Rattle.doc_lines.specs.RestSteps.{rest_of};
ghost use Rattle.doc_inlines_marks.specs.LabelSteps.{IsTooLong};

use doc_lines::scan::character::is;
use doc_lines::scan::front::front;
use doc_refs::scan::escaped::escaped_or_one;
use doc_refs::scan::label::is_label as is_short_label;

/// How many characters may stand between the brackets of a label (CommonMark 0.31.2, section 6.3).
const MOST: usize = 999;

/// A label with its brackets.
#[tactic(auto, unfolding(doc_rules::specs::Labels::label), using(crate::proofs::LabelSteps::too_long_for_label))]
pub fn label(text: &str) -> Option<&str>
    ensures { rest_of result ≡ label (chars text.now) }
{
    let inside = is(text, '[')?;
    let rest = label_text(inside)?;
    if !is_short_label(front(inside, rest)) {
        return None;
    }
    is(rest, ']')
}

/// Whether this may stand between the brackets of a label. It is looked at up to its first bracket that isn't escaped.
pub fn is_label(text: &str) -> bool
    ensures { result ≡ is_label (chars text.now) }
{
    match label_text(text) {
        Some(rest) => rest.is_empty() && is_short_label(text),
        None => false,
    }
}

/// The longest run of characters of which brackets only escaped, or `None` where it is too long for a label.
fn label_text(text: &str) -> Option<&str>
    ensures { MatchOption result (IsTooLong (chars text.now))
        (λ rest. (Some (chars rest.now) ≡ label_text (chars text.now))
        × IsRest (chars rest.now) (chars text.now)) }
{
    let mut rest = text;
    let mut left = MOST + 1;
    'characters: while left > 0 {
        let Some(behind) = escaped_or_one(rest, is_no_bracket) else {
            return Some(rest);
        };
        rest = behind;
        left -= 1;
    }
    None
}

fn is_no_bracket(c: char) -> bool
    ensures { result ≡ none_of (codes "[]") c }
{
    !matches!(c, '[' | ']')
}
