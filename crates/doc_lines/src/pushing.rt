//! Characters and texts at the end of a text, as contracts over characters see them.
ghost use Rattle.std.specs.Prelude.{◌≡◌, [], ◌∷◌, ◌++◌, chars, string_bytes, OnErr, OnOk};
ghost use Rattle.doc_lines.specs.Entities.{characters};

use doc_page_parts::failure::Memory;
use doc_page_parts::heap::String;

/// Adds a character. Without memory `out` stays as it is.
pub fn push_char(out: &mut String, c: char) -> Result<(), Memory>
    ensures ok { OnOk result (chars (string_bytes out.new) ≡ chars (string_bytes out.old) ++ c
        ∷ []) }
    ensures err { OnErr result (string_bytes out.new ≡ string_bytes out.old) }
{
    Ok(out.push(c)?)
}

/// Adds a text. Without memory `out` stays as it is.
pub fn push_text(out: &mut String, text: &str) -> Result<(), Memory>
    ensures ok { OnOk result (chars (string_bytes out.new) ≡ chars (string_bytes out.old)
        ++ chars text.now) }
    ensures err { OnErr result (string_bytes out.new ≡ string_bytes out.old) }
{
    Ok(out.push_str(text)?)
}

/// Adds one or two characters. Without memory `out` stays as it is.
pub fn push_characters(out: &mut String, those: (char, Option<char>)) -> Result<(), Memory>
    ensures ok { OnOk result (chars (string_bytes out.new) ≡ chars (string_bytes out.old)
        ++ characters those) }
    ensures err { OnErr result (string_bytes out.new ≡ string_bytes out.old) }
{
    match those.1 {
        None => push_char(out, those.0),
        Some(second) => push_both(out, those.0, second),
    }
}

/// Adds two characters. Without memory `out` stays as it is.
fn push_both(out: &mut String, first: char, second: char) -> Result<(), Memory>
    ensures ok { OnOk result (chars (string_bytes out.new) ≡ chars (string_bytes out.old) ++ first
        ∷ second ∷ []) }
    ensures err { OnErr result (string_bytes out.new ≡ string_bytes out.old) }
{
    out.reserve(first.len_utf8() + second.len_utf8())?;
    out.push(first)?;
    Ok(out.push(second)?)
}
