//! Runs of backticks (CommonMark 0.31.2, section 6.1).
ghost use Rattle.std.specs.Prelude.{◌≡◌, ℕ, ◌<◌, ◌≢◌, ◌==◌, chars, drop, get_or, length, OnOk};
ghost use Rattle.doc_rules.specs.Parsers.{run_length};
ghost use Rattle.doc_inlines_marks.specs.ToldSteps.{size};
ghost use Rattle.doc_inlines_marks.specs.RunSteps.{IsToRun, IsSpanEnd, IsLearned};

use doc_lines::scan::front::front;
use doc_lines::scan::run::many;
use doc_page_parts::failure::Memory;
use doc_page_parts::heap::Vec;

/// The text from its first backtick on; nothing where there is none. It looks at bytes.
fn to_run(text: &str) -> &str
    ensures { IsToRun (chars result.now) (chars text.now) }
{
    match text.find('`') {
        Some(place) => &text[place..],
        None => "",
    }
}

/// How many backticks stand at the front, and the text behind them.
pub(crate) fn run(text: &str) -> (usize, &str)
    ensures length { result.0 ≡ run_length 96 (chars text.now) }
    ensures behind { chars result.1.now ≡ drop (run_length 96 (chars text.now)) (chars text.now) }
    ensures size { size (chars result.1.now) ≡ length result.1.now }
    ensures bound { result.0 < usize.MAX }
{
    let behind = many(text, is_backtick);
    (text.len() - behind.len(), behind)
}

fn is_backtick(c: char) -> bool
    ensures { result ≡ (96 == c) }
{
    c == '`'
}

/// The text in front of the first run of exactly so many backticks, and the text behind it.
pub(crate) fn span_end(text: &str, wanted: usize) -> Option<(&str, &str)>
    requires { 0 < wanted }
    ensures { IsSpanEnd wanted (chars text.now) result }
{
    let mut rest = text;
    'runs: loop {
        let start = to_run(rest);
        let (length, behind) = run(start);
        if length == wanted {
            return Some((front(text, start), behind));
        }
        if length == 0 {
            return None;
        }
        rest = behind;
    }
}

/// Learns for each length the place of its last run, in one pass: how many bytes are left where it begins.
pub(crate) fn learn_places(places: &mut Vec<usize>, text: &str) -> Result<(), Memory>
    ensures { OnOk result (IsLearned places.new.items (chars text.now)) }
{
    let mut rest = text;
    'runs: loop {
        let start = to_run(rest);
        let (length, behind) = run(start);
        if length == 0 {
            return Ok(());
        }
        note(places, text.len(), length, start.len())?;
        rest = behind;
    }
}

/// A run of this length begins at this place. Lengths that were not seen have `none`.
fn note(places: &mut Vec<usize>, none: usize, length: usize, place: usize) -> Result<(), Memory>
    requires { length < usize.MAX }
    ensures same { OnOk result (get_or places.new.items length none ≡ place) }
    ensures others { OnOk result ((n : ℕ) → n ≢ length
        → get_or places.new.items n none ≡ get_or places.old.items n none) }
{
    if places.len() <= length {
        places.resize(length + 1, none)?;
    }
    places[length] = place;
    Ok(())
}
