//! Runs of one character.
ghost use Rattle.std.specs.Prelude.{◌≡◌, ◌==◌, ◌-◌, ℕ, Option, chars, length, IfSome};
ghost use Rattle.doc_rules.specs.Parsers.{some};
ghost use Rattle.doc_lines.specs.MeaningSteps.{behind_of};

use doc_lines::scan::character::is;

/// How many of this character stand at the front, one at least, and the text behind them.
pub fn run_of(text: &str, c: char) -> Option<(usize, &str)>
    ensures behind { behind_of result ≡ some (λ d. d == c) (chars text.now) }
    ensures count { IfSome result (λ run. run.0
        ≡ length (chars text.now) - length (chars run.1.now)) }
{
    let mut count = 0;
    let mut rest = text;
    'characters: while let Some(behind) = is(rest, c) {
        count += 1;
        rest = behind;
    }
    if count == 0 {
        return None;
    }
    Some((count, rest))
}
