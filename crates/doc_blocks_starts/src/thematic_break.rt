//! Thematic breaks (CommonMark 0.31.2, section 4.1).
ghost use Rattle.std.specs.Prelude.{◌≡◌, ◌==◌, ◌||◌, nat_le, chars, filter, length};
ghost use Rattle.std.specs.List.{list_all};
ghost use Rattle.doc_rules.specs.Characters.{is_space_or_tab};
ghost use Rattle.doc_rules.specs.LeafStarts.{is_break_of, is_thematic_break};

use doc_lines::scan::white_space::is_space_or_tab;

/// Whether a line is a thematic break (CommonMark 0.31.2, section 4.1), by what stands behind its indentation: three or more `-`,
/// `_` or `*`, with spaces and tabs between and behind them.
#[tactic(auto, unfolding(doc_rules::specs::LeafStarts::is_thematic_break))]
pub fn is_thematic_break(text: &str) -> bool
    ensures { result ≡ is_thematic_break (chars text.now) }
{
    is_break_of(text, '-') || is_break_of(text, '_') || is_break_of(text, '*')
}

/// Whether it is one of this character. A text with others is left at the first of them.
#[tactic(auto, unfolding(doc_rules::specs::LeafStarts::is_break_of))]
fn is_break_of(text: &str, c: char) -> bool
    ensures { result ≡ is_break_of c (chars text.now) }
{
    has_only(text, c) && has_three(text, c)
}

fn has_only(text: &str, c: char) -> bool
    ensures { result ≡ list_all (λ d. (d == c) || is_space_or_tab d) (chars text.now) }
{
    text.chars().all(|d| d == c || is_space_or_tab(d))
}

fn has_three(text: &str, c: char) -> bool
    ensures { result ≡ nat_le 3 (length (filter (λ d. d == c) (chars text.now))) }
{
    text.chars().filter(|d| *d == c).count() >= 3
}
