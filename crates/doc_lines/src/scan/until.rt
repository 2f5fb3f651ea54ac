//! Runs of characters that end at an ASCII character.
ghost use Rattle.std.specs.Prelude.{◌<◌, ℕ, Bool, true, chars};
ghost use Rattle.doc_rules.specs.Rests.{IsRest};
ghost use Rattle.doc_lines.specs.RestSteps.{IsTestOf, IsAsciiClass, IsCutBefore};

/// The text from the first character on that passes the test, or its end where none does. Only ASCII characters may pass, so the search
/// goes over bytes, which is faster than over characters.
pub fn until<F: Fn(u8) -> bool>(text: &str, test: F) -> &str
    requires callable { F.IsAlwaysCallable test }
    requires ascii { (b : ℕ) → F.post test b true → b < 128 }
    ensures cut { (class : ℕ → Bool) → IsTestOf (F.post test) class → IsAsciiClass class
        → IsCutBefore class (chars text.now) (chars result.now) }
    ensures end { IsRest (chars result.now) (chars text.now) }
{
    for (place, byte) in text.as_bytes().iter().enumerate() {
        if test(*byte) {
            return &text[place..];
        }
    }
    ""
}
