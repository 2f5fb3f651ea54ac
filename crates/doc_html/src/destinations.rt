//! Destinations in HTML.
ghost use Rattle.std.specs.Prelude.{◌≡◌, ◌++◌, chars, encode_utf8_all, flat_map, string_bytes, IfOk, OnOk};
ghost use Rattle.std.specs.List.{list_all};
ghost use Rattle.doc_rules.specs.Escaping.{url_escape};
ghost use Rattle.doc_html.specs.EscapeSteps.{stays};
ghost use Rattle.doc_html.specs.PlainLinks.{url_byte};

use doc_page_encoding::encoding::push_destination;
use doc_page_parts::failure::Memory;
use doc_page_parts::heap::{Heap, String};
use doc_page_parts::text::Text;

/// The destination as it is written in an attribute (CommonMark 0.31.2, section 6.3).
pub(crate) fn url(heap: Heap, dest: &str) -> Result<Text, Memory>
    ensures characters { IfOk result (λ url. chars url ≡ url_escape (chars dest.now)) }
    ensures bytes { IfOk result (λ url. url ≡ encode_utf8_all (flat_map url_byte dest.now)) }
{
    let mut out = String::with_capacity(heap, dest.len())?;
    push_url(heap, &mut out, dest)?;
    Ok(Text::new(out))
}

/// Adds the destination as it is written in an attribute.
pub(crate) fn push_url(heap: Heap, out: &mut String, dest: &str) -> Result<(), Memory>
    ensures { OnOk result (string_bytes out.new ≡ string_bytes out.old
        ++ encode_utf8_all (flat_map url_byte dest.now)) }
{
    if stays(dest) {
        out.push_str(dest)?;
        return Ok(());
    }
    push_destination(heap, out, dest)?;
    Ok(())
}

/// Whether each byte of a destination is written as it is.
fn stays(dest: &str) -> bool
    ensures { result ≡ list_all stays dest.now }
{
    dest.as_bytes().iter().all(|byte| byte_stays(*byte))
}

// Each byte that is written as it is stands at its own place, and a bar at every other place.
static STAYING: [u8; 256] = *b"\
    ||||||||||||||||||||||||||||||||\
    |!|#$%|'()*+,-./0123456789:;|=|?\
    @ABCDEFGHIJKLMNOPQRSTUVWXYZ||||_\
    |abcdefghijklmnopqrstuvwxyz|||~|\
    ||||||||||||||||||||||||||||||||\
    ||||||||||||||||||||||||||||||||\
    ||||||||||||||||||||||||||||||||\
    ||||||||||||||||||||||||||||||||";

fn byte_stays(byte: u8) -> bool
    ensures { result ≡ stays byte }
{
    STAYING[byte as usize] != b'|'
}
