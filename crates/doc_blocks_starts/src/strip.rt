//! Slices of a text without characters at its ends.
ghost use Rattle.std.specs.Prelude.{◌≡◌, ℕ, Bool, chars};
ghost use Rattle.doc_rules.specs.Characters.{is_space_or_tab, strip, strip_end};
ghost use Rattle.doc_lines.specs.RestSteps.{IsTestOf};

use doc_lines::scan::character::last_char;
use doc_lines::scan::run::many;
use doc_lines::scan::white_space::is_space_or_tab;

/// The text without the longest run of characters at its end that pass the test.
pub fn strip_end<F: Fn(char) -> bool>(text: &str, test: F) -> &str
    requires { F.IsAlwaysCallable test }
    ensures { (class : ℕ → Bool) → IsTestOf (F.post test) class
        → chars result.now ≡ strip_end class (chars text.now) }
{
    let mut rest = text;
    'characters: while let Some((front, c)) = last_char(rest) {
        if !test(c) {
            return rest;
        }
        rest = front;
    }
    rest
}

/// The text without spaces and tabs at both ends.
pub fn strip_spaces(text: &str) -> &str
    ensures { chars result.now ≡ strip is_space_or_tab (chars text.now) }
{
    strip_end(many(text, is_space_or_tab), is_space_or_tab)
}
