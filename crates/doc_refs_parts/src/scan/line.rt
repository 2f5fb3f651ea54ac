//! The two ends of a line.
ghost use Rattle.std.specs.Prelude.{◌≡◌, Some, chars};
ghost use Rattle.doc_rules.specs.Parsers.{is, maybe};
ghost use Rattle.doc_rules.specs.Definitions.{end_of_line, rest_of_line, margin};
ghost use Rattle.doc_lines.specs.RestSteps.{rest_of};

use doc_lines::scan::character::is;
use doc_lines::scan::run::many;
use doc_lines::scan::white_space::{is_space_or_tab, line_ending};

/// At most three spaces.
pub fn margin(text: &str) -> &str
    ensures { Some (chars result.now) ≡ margin (chars text.now) }
{
    past_space(past_space(past_space(text)))
}

fn past_space(text: &str) -> &str
    ensures { Some (chars result.now) ≡ maybe (is 32) (chars text.now) }
{
    is(text, ' ').unwrap_or(text)
}

/// Nothing but spaces and tabs up to the end of the line, and the line ending.
#[tactic(auto, unfolding(doc_rules::specs::Definitions::rest_of_line))]
pub fn rest_of_line(text: &str) -> Option<&str>
    ensures { rest_of result ≡ rest_of_line (chars text.now) }
{
    end_of_line(many(text, is_space_or_tab))
}

/// A line ending, or the end of the text.
#[tactic(auto, unfolding(doc_rules::specs::Definitions::end_of_line))]
fn end_of_line(text: &str) -> Option<&str>
    ensures { rest_of result ≡ end_of_line (chars text.now) }
{
    if text.is_empty() {
        return Some(text);
    }
    line_ending(text)
}
