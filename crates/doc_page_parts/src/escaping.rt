//! How text is written in HTML.

ghost use Rattle.std.specs.Prelude.{◌≡◌, ◌<◌, ◌∷◌, [], ◌++◌, string_bytes, IfOk, OnOk, OnErr, OnSome, IfSome, IfNone};
ghost use Rattle.std.specs.Io.{StartsWith};
ghost use Rattle.doc_page_parts.specs.Escaping.{escaped, escaped_byte};

use crate::failure::Memory;
use crate::heap::{Heap, String};
use crate::text::Text;

/// The text with `&`, `<`, `>` and `"` written `&amp;`, `&lt;`, `&gt;` and `&quot;`. It is for callers from outside:
/// nothing in the product calls it.
pub fn escape(heap: Heap, text: &str) -> Result<Text, Memory>
    ensures { IfOk result (λ html. html ≡ escaped text.now) }
{
    let mut out = String::with_capacity(heap, text.len())?;
    push_escaped(&mut out, text)?;
    Ok(Text::new(out))
}

/// Writes the escaped text at the end of the buffer, where after a refusal part of it may stand.
#[tactic(auto, using(crate::proofs::BufferSteps::front_same, crate::proofs::BufferSteps::front_more))]
pub fn push_escaped(out: &mut String, text: &str) -> Result<(), Memory>
    ensures ok { OnOk result (string_bytes out.new ≡ string_bytes out.old ++ escaped text.now) }
    ensures err { OnErr result (StartsWith (string_bytes out.new) (string_bytes out.old)) }
{
    out.reserve(text.len())?;
    let mut start = 0;
    for (i, byte) in text.as_bytes().iter().enumerate() {
        let Some(reference) = reference(*byte) else {
            continue;
        };
        out.push_str(&text[start..i])?;
        out.push_str(reference)?;
        start = i + 1;
    }
    out.push_str(&text[start..])?;
    Ok(())
}

/// The character reference that stands for a byte, where it is not written as it is.
fn reference(byte: u8) -> Option<&'static str>
    ensures ascii { OnSome result (byte < 128) }
    ensures written { IfSome result (λ reference. reference.now ≡ escaped_byte byte) }
    ensures plain { IfNone result (byte ∷ [] ≡ escaped_byte byte) }
{
    match byte {
        b'&' => Some("&amp;"),
        b'<' => Some("&lt;"),
        b'>' => Some("&gt;"),
        b'"' => Some("&quot;"),
        _ => None,
    }
}
