//! Whether what is written next stands at the front of a line.
ghost use Rattle.std.specs.Prelude.{◌≡◌, ◌==◌, chars};
ghost use Rattle.doc_html.specs.WrittenSteps.{fresh_behind};

use doc_lines::scan::character::last_char;

/// Whether a LF stands last behind this text, where it did or did not before it.
pub(crate) fn fresh_behind(fresh: bool, text: &str) -> bool
    ensures { result ≡ fresh_behind fresh (chars text.now) }
{
    match last_char(text) {
        None => fresh,
        Some((_, c)) => c == '\n',
    }
}
