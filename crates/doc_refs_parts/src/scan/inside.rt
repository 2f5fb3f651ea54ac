//! What stands between two marks.
ghost use Rattle.std.specs.Prelude.{◌≡◌, ◌-◌, length, take, chars};
ghost use Rattle.doc_rules.specs.Parsers.{inside};

use doc_lines::scan::character::{last_char, next_char};

/// The text without its first and its last character, as a slice of it; empty where it has no more than these.
pub fn inside(text: &str) -> &str
    ensures { chars result.now ≡ inside (chars text.now) }
{
    match next_char(text) {
        Some((_, rest)) => without_last(rest),
        None => text,
    }
}

/// The text without its last character.
fn without_last(text: &str) -> &str
    ensures { chars result.now ≡ take (length (chars text.now) - 1) (chars text.now) }
{
    match last_char(text) {
        Some((front, _)) => front,
        None => text,
    }
}
