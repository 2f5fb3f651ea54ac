//! Link labels (CommonMark 0.31.2, section 6.3).
ghost use Rattle.std.specs.Prelude.{◌≡◌, nat_le, length, Some, chars, codes};
ghost use Rattle.std.specs.List.{list_all};
ghost use Rattle.doc_rules.specs.Characters.{none_of, is_space_tab_or_ending};
ghost use Rattle.doc_rules.specs.Parsers.{begins_before, is_nothing};
ghost use Rattle.doc_rules.specs.Labels.{label, label_text, is_label};
ghost use Rattle.doc_rules.specs.Rests.{IsRest};
ghost use Rattle.doc_lines.specs.RestSteps.{rest_of};

use super::escaped::many_or_escaped;
use doc_lines::scan::character::is;
use doc_lines::scan::front::front;

/// How many characters may stand between the brackets of a label.
const MOST: usize = 999;

/// A label with its brackets.
#[tactic(auto, unfolding(doc_rules::specs::Labels::label))]
pub fn label(text: &str) -> Option<&str>
    ensures { rest_of result ≡ label (chars text.now) }
{
    let inside = is(text, '[')?;
    let rest = label_text(inside);
    if !is_label(front(inside, rest)) {
        return None;
    }
    is(rest, ']')
}

/// Whether this may stand between the brackets of a label: at most 999 characters, of which one is no space, tab or line ending,
/// and brackets only escaped.
#[tactic(auto, unfolding(doc_rules::specs::Labels::is_label))]
pub fn is_label(text: &str) -> bool
    ensures { result ≡ is_label (chars text.now) }
{
    is_short(text) && !is_white(text) && is_label_text(text)
}

fn is_short(text: &str) -> bool
    ensures { result ≡ nat_le (length (chars text.now)) 999 }
{
    text.chars().count() <= MOST
}

fn is_white(text: &str) -> bool
    ensures { result ≡ list_all is_space_tab_or_ending (chars text.now) }
{
    text.chars().all(is_space_tab_or_ending)
}

fn is_label_text(text: &str) -> bool
    ensures { result ≡ begins_before is_nothing label_text (chars text.now) }
{
    label_text(text).is_empty()
}

/// The longest run of characters of which brackets only escaped.
fn label_text(text: &str) -> &str
    ensures value { Some (chars result.now) ≡ label_text (chars text.now) }
    ensures end { IsRest (chars result.now) (chars text.now) }
{
    many_or_escaped(text, is_no_bracket)
}

fn is_no_bracket(c: char) -> bool
    ensures { result ≡ none_of (codes "[]") c }
{
    !matches!(c, '[' | ']')
}

/// A space, a tab, or a character of a line ending.
pub fn is_space_tab_or_ending(c: char) -> bool
    ensures { result ≡ is_space_tab_or_ending c }
{
    matches!(c, ' ' | '\t' | '\n' | '\r')
}
