//! The HTML of a page, kept from beginning forms and frames, and from leaving a tag open.

ghost use Rattle.std.specs.Prelude.{◌≡◌, ◌++◌, ◌<◌, length, drop, string_bytes, OnOk};
ghost use Rattle.std.specs.Str.{str_eq_ignore_ascii_case};
ghost use Rattle.doc_people.specs.Inert.{begins_form_or_frame, begins_in_any_case, disarmed, has_apostrophe, inert};

use doc_page_parts::failure::Memory;
use doc_page_parts::heap::String;

/// What ends a tag that is left open, in either kind of quotes.
const ENDING_LINE: &str = "<!--'\"-->\n";

/// Writes HTML with `&lt;` for each `<` that begins a form or a frame, and behind it a line that ends a tag which an open `'` left open.
pub fn push_inert(out: &mut String, html: &str) -> Result<(), Memory>
    ensures { OnOk result (string_bytes out.new ≡ string_bytes out.old ++ inert html.now) }
{
    push_disarmed(out, html)?;
    if !has_apostrophe(html.as_bytes()) {
        return Ok(());
    }
    out.push_str(ENDING_LINE)?;
    Ok(())
}

/// Writes HTML with `&lt;` for each `<` that begins a form or a frame. What stands between two of these is copied whole.
fn push_disarmed(out: &mut String, html: &str) -> Result<(), Memory>
    ensures { OnOk result (string_bytes out.new ≡ string_bytes out.old ++ disarmed html.now) }
{
    out.reserve(html.len())?;
    let bytes = html.as_bytes();
    let mut start = 0;
    for i in 0..bytes.len() {
        if !begins_at(bytes, i) {
            continue;
        }
        out.push_str(&html[start..i])?;
        out.push_str("&lt;")?;
        start = i + 1;
    }
    out.push_str(&html[start..])?;
    Ok(())
}

/// Whether the tag of a form or of a frame begins at a place.
fn begins_at(text: &[u8], i: usize) -> bool
    requires { i < length text.now }
    ensures { result ≡ begins_form_or_frame (drop i text.now) }
{
    text[i] == b'<' && begins_form_or_frame(&text[i..])
}

/// Whether the tag of a form or of a frame begins.
fn begins_form_or_frame(text: &[u8]) -> bool
    ensures { result ≡ begins_form_or_frame text.now }
{
    begins_in_any_case(b"<form", text) || begins_in_any_case(b"<iframe", text)
}

/// Whether a text begins with a word, in any case of ASCII letters.
fn begins_in_any_case(word: &[u8], text: &[u8]) -> bool
    ensures { result ≡ begins_in_any_case word.now text.now }
{
    if text.len() < word.len() {
        return false;
    }
    is_word(&text[..word.len()], word)
}

/// Whether a text is a word, in any case of ASCII letters.
fn is_word(text: &[u8], word: &[u8]) -> bool
    ensures { result ≡ str_eq_ignore_ascii_case text.now word.now }
{
    text.eq_ignore_ascii_case(word)
}

/// Whether HTML has a `'`.
fn has_apostrophe(html: &[u8]) -> bool
    ensures { result ≡ has_apostrophe html.now }
{
    html.contains(&b'\'')
}
