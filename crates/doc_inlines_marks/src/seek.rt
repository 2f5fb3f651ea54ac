//! Ends of raw HTML (CommonMark 0.31.2, section 6.6) that are sought in vain once.
ghost use Rattle.std.specs.Prelude.{◌≡◌, ◌==◌, not, chars, codes};
ghost use Rattle.std.specs.Char.{is_ascii_alphabetic};
ghost use Rattle.doc_rules.specs.Parsers.{is, one, word, through, ◌then◌};
ghost use Rattle.doc_lines.specs.RestSteps.{rest_of};
ghost use Rattle.doc_inlines_marks.specs.EndSteps.{Seeks};

use doc_lines::scan::character::{is, one};
use doc_lines::scan::run::many;
use doc_lines::scan::word::{through, word};

/// All up to and with the first place of this word, which is not sought where it is known to be missing: in a text with fewer than
/// `missing` bytes.
pub(crate) fn seek<'t>(missing: &mut usize, text: &'t str, end: &[u8]) -> Option<&'t str>
    ensures { Seeks (word end.now) missing.old missing.new (chars text.now) (rest_of result) }
{
    if text.len() < *missing {
        return None;
    }
    if let Some(after) = through(text, end) {
        return Some(after);
    }
    *missing = text.len();
    None
}

/// The same up to and with the first `>`.
pub(crate) fn seek_close<'t>(missing: &mut usize, text: &'t str) -> Option<&'t str>
    ensures { Seeks (is 62) missing.old missing.new (chars text.now) (rest_of result) }
{
    if text.len() < *missing {
        return None;
    }
    if let Some(after) = through_close(text) {
        return Some(after);
    }
    *missing = text.len();
    None
}

fn through_close(text: &str) -> Option<&str>
    ensures { rest_of result ≡ through (is 62) (chars text.now) }
{
    is(many(text, is_no_close), '>')
}

fn is_no_close(c: char) -> bool
    ensures { result ≡ not (c == 62) }
{
    c != '>'
}

/// `<!` and a letter.
pub(crate) fn declaration_start(text: &str) -> Option<&str>
    ensures { rest_of result ≡ (word (codes "<!") then one is_ascii_alphabetic) (chars text.now) }
{
    one(word(text, b"<!")?, |c| c.is_ascii_alphabetic())
}
