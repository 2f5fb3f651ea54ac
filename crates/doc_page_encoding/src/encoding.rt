//! Percent-encoding of paths, anchors and destinations.

ghost use Rattle.std.specs.Prelude.{◌≡◌, ◌++◌, string_bytes, IfOk, OnOk, OnErr};
ghost use Rattle.std.specs.Cow.{cow_str_bytes};
ghost use Rattle.std.specs.Io.{StartsWith};
ghost use Rattle.doc_page_parts.specs.Escaping.{escaped};
ghost use Rattle.doc_page_encoding.specs.Encoding.{encoded, encoded_path, destination};

use doc_page_parts::escaping::push_escaped;
use doc_page_parts::failure::Memory;
use doc_page_parts::heap::{Heap, String};
use percent_encoding::{AsciiSet, NON_ALPHANUMERIC, ascii_set, utf8_percent_encode};
use std::borrow::CowStr;

/// What is encoded in a segment and in an anchor: all but unreserved characters.
const SEGMENT: AsciiSet = ascii_set!(
    NON_ALPHANUMERIC
        .remove(b'-')
        .remove(b'.')
        .remove(b'_')
        .remove(b'~')
);

/// What is encoded in a path: the same, but for the `/` between its segments.
const PATH: AsciiSet = ascii_set!(
    NON_ALPHANUMERIC
        .remove(b'-')
        .remove(b'.')
        .remove(b'_')
        .remove(b'~')
        .remove(b'/')
);

/// What is encoded in a destination.
const DESTINATION: AsciiSet = ascii_set!(
    NON_ALPHANUMERIC
        .remove(b'-')
        .remove(b'_')
        .remove(b'.')
        .remove(b'+')
        .remove(b'!')
        .remove(b'*')
        .remove(b'\'')
        .remove(b'(')
        .remove(b')')
        .remove(b',')
        .remove(b'%')
        .remove(b'#')
        .remove(b'@')
        .remove(b'?')
        .remove(b'=')
        .remove(b';')
        .remove(b':')
        .remove(b'/')
        .remove(b'&')
        .remove(b'$')
        .remove(b'~')
);

/// Writes a segment or an anchor, encoded, at the end of the buffer. A refused write leaves the buffer as it was.
pub fn push_encoded(out: &mut String, text: &str) -> Result<(), Memory>
    ensures ok { OnOk result (string_bytes out.new ≡ string_bytes out.old ++ encoded text.now) }
    ensures err { OnErr result (string_bytes out.new ≡ string_bytes out.old) }
{
    utf8_percent_encode(text, SEGMENT).append_to(out)?;
    Ok(())
}

/// Writes a path, its segments encoded, at the end of the buffer. A refused write leaves the buffer as it was.
pub fn push_encoded_path(out: &mut String, path: &str) -> Result<(), Memory>
    ensures ok { OnOk result
        (string_bytes out.new ≡ string_bytes out.old ++ encoded_path path.now) }
    ensures err { OnErr result (string_bytes out.new ≡ string_bytes out.old) }
{
    utf8_percent_encode(path, PATH).append_to(out)?;
    Ok(())
}

/// The path, its segments encoded: the path itself, where no byte of it has to be.
pub fn encoded_path<'a>(heap: Heap, path: &'a str) -> Result<CowStr<'a, Heap>, Memory>
    ensures { IfOk result (λ text. cow_str_bytes text ≡ encoded_path path.entry.now) }
{
    Ok(utf8_percent_encode(path, PATH).into_cow(heap)?)
}

/// Writes a link's destination as an attribute of HTML has it, encoded and escaped, at the end of the buffer, where after a refusal part
/// of it may stand. Memory is taken beside the buffer only where a byte has to be encoded.
#[tactic(auto, using(doc_page_parts::proofs::BufferSteps::front_same))]
pub fn push_destination(heap: Heap, out: &mut String, dest: &str) -> Result<(), Memory>
    ensures ok { OnOk result
        (string_bytes out.new ≡ string_bytes out.old ++ escaped (destination dest.now)) }
    ensures err { OnErr result (StartsWith (string_bytes out.new) (string_bytes out.old)) }
{
    let written = written_destination(heap, dest)?;
    push_escaped(out, written.as_str())
}

/// The destination, encoded: the destination itself, where no byte of it has to be.
fn written_destination<'a>(heap: Heap, dest: &'a str) -> Result<CowStr<'a, Heap>, Memory>
    ensures { IfOk result (λ text. cow_str_bytes text ≡ destination dest.entry.now) }
{
    Ok(utf8_percent_encode(dest, DESTINATION).into_cow(heap)?)
}
