//! Classes of characters. ASCII is told by its codes alone, without the tables of Unicode.
ghost use Rattle.std.specs.Prelude.{◌≡◌};
ghost use Rattle.doc_rules.specs.Characters.{is_white, is_punctuation};
ghost use Rattle.doc_inlines.specs.ClassSteps.{is_ascii_white};

use doc_lines::characters as unicode;

/// Whether the character is Unicode whitespace (CommonMark 0.31.2, section 2.1).
pub(crate) fn is_white(c: char) -> bool
    ensures { result ≡ is_white c }
{
    if c.is_ascii() {
        return is_ascii_white(c);
    }
    unicode::is_white(c)
}

fn is_ascii_white(c: char) -> bool
    ensures { result ≡ is_ascii_white c }
{
    matches!(c, '\t' | '\n' | '\u{c}' | '\r' | ' ')
}

/// Whether the character is Unicode punctuation (CommonMark 0.31.2, section 2.1).
pub(crate) fn is_punctuation(c: char) -> bool
    ensures { result ≡ is_punctuation c }
{
    if c.is_ascii() {
        return c.is_ascii_punctuation();
    }
    unicode::is_punctuation(c)
}
