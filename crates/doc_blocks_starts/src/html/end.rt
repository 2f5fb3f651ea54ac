//! What the last line of an HTML block holds (CommonMark 0.31.2, section 4.6).
ghost use Rattle.std.specs.Prelude.{◌≡◌, ◌++◌, ◌==◌, not, chars, codes};
ghost use Rattle.std.specs.List.{list_any};
ghost use Rattle.doc_rules.specs.Parsers.{is, word, word_in_any_case, holds};
ghost use Rattle.doc_rules.specs.HtmlStarts.{raw_text_names};

use doc_lines::scan::character::is;
use doc_lines::scan::run::many;
use doc_lines::scan::word::{through, through_in_any_case};

/// Whether the end tag of a name of kind 1 stands in the line, in any case.
#[tactic(auto, unfolding(doc_rules::specs::HtmlStarts::raw_text_names))]
pub fn holds_raw_text_end(line: &str) -> bool
    ensures { result ≡ list_any (λ name. holds (word_in_any_case (codes "</" ++ name ++ codes ">"))
        (chars line.now)) raw_text_names }
{
    holds_in_any_case(line, b"</script>")
        || holds_in_any_case(line, b"</pre>")
        || holds_in_any_case(line, b"</style>")
        || holds_in_any_case(line, b"</textarea>")
}

/// Whether this word of lower case letters stands in the line, in any case.
fn holds_in_any_case(line: &str, end: &[u8]) -> bool
    ensures { result ≡ holds (word_in_any_case end.now) (chars line.now) }
{
    through_in_any_case(line, end).is_some()
}

/// Whether this word stands in the line.
pub fn holds(line: &str, end: &[u8]) -> bool
    ensures { result ≡ holds (word end.now) (chars line.now) }
{
    through(line, end).is_some()
}

/// Whether a `>` stands in the line.
pub fn holds_right_angle(line: &str) -> bool
    ensures { result ≡ holds (is 62) (chars line.now) }
{
    is(many(line, is_no_right_angle), '>').is_some()
}

fn is_no_right_angle(c: char) -> bool
    ensures { result ≡ not (c == 62) }
{
    c != '>'
}
