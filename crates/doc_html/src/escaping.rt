//! Escaped text at the end of a buffer. A table of 256 bytes tells which are written otherwise.
ghost use Rattle.std.specs.Prelude.{◌≡◌, ◌<◌, ◌∷◌, [], ◌++◌, ◌==◌, true, string_bytes, OnOk};
ghost use Rattle.doc_page_parts.specs.Escaping.{escaped, escaped_byte};
ghost use Rattle.doc_html.specs.EscapeSteps.{is_escaped};

use doc_page_parts::failure::Memory;
use doc_page_parts::heap::String;

/// Writes the text with `&`, `<`, `>` and `"` as references.
pub(crate) fn push_escaped(out: &mut String, text: &str) -> Result<(), Memory>
    ensures { OnOk result (string_bytes out.new ≡ string_bytes out.old ++ escaped text.now) }
{
    let mut start = 0;
    for (i, byte) in text.as_bytes().iter().enumerate() {
        if !is_escaped(*byte) {
            continue;
        }
        out.push_str(&text[start..i])?;
        out.push_str(reference(*byte))?;
        start = i + 1;
    }
    out.push_str(&text[start..])?;
    Ok(())
}

// Each byte that is written otherwise stands at its own place, and a dot at every other place.
static ESCAPED: [u8; 256] = *b"\
    ................................\
    ..\"...&.....................<.>.\
    ................................\
    ................................\
    ................................\
    ................................\
    ................................\
    ................................";

/// Whether a byte is written as a reference.
fn is_escaped(byte: u8) -> bool
    ensures { result ≡ is_escaped byte }
{
    ESCAPED[byte as usize] != b'.'
}

/// The character reference that stands for such a byte.
fn reference(byte: u8) -> &'static str
    requires { is_escaped byte ≡ true }
    ensures { result.now ≡ escaped_byte byte }
{
    if byte == b'&' {
        return "&amp;";
    }
    if byte == b'<' {
        return "&lt;";
    }
    if byte == b'>' {
        return "&gt;";
    }
    "&quot;"
}
