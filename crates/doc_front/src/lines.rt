//! The lines of a text, cut off one by one (CommonMark 0.31.2, section 2.1).
ghost use Rattle.std.specs.Prelude.{◌≡◌, ◌<◌, [], chars, length, IfSome, MatchOption};
ghost use Rattle.doc_rules.specs.Characters.{is_ending};
ghost use Rattle.doc_blocks.specs.ContentSteps.{behind_ending, IsFirstLine};

use doc_lines::scan::character::is;
use doc_lines::scan::front::front;
use doc_lines::scan::until::until;

/// The first line of a text, without its ending, and the text behind it.
pub(crate) fn first_line(text: &str) -> Option<(&str, &str)>
    ensures line { MatchOption result (chars text.now ≡ [])
        (λ found. IsFirstLine (chars text.now) (chars found.0.now) (chars found.1.now)) }
    ensures shorter { IfSome result (λ found.
        length (chars found.1.now) < length (chars text.now)) }
{
    if text.is_empty() {
        return None;
    }
    let stop = until(text, is_ending);
    Some((front(text, stop), behind_ending(stop)))
}

fn is_ending(byte: u8) -> bool
    ensures { result ≡ is_ending byte }
{
    matches!(byte, b'\n' | b'\r')
}

/// The text behind the line ending at its front, if one stands there.
fn behind_ending(text: &str) -> &str
    ensures { chars result.now ≡ behind_ending (chars text.now) }
{
    if let Some(rest) = is(text, '\n') {
        return rest;
    }
    let Some(rest) = is(text, '\r') else {
        return text;
    };
    match is(rest, '\n') {
        Some(behind) => behind,
        None => rest,
    }
}
