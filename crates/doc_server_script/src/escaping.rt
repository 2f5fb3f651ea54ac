//! Writing escaped texts.

ghost use Rattle.std.specs.Prelude.{◌≡◌, ◌<◌, ◌++◌, ◌∷◌, [], string_bytes, OnOk, OnErr};
ghost use Rattle.std.specs.Io.{StartsWith};
ghost use Rattle.std.specs.List.{flat_map};
ghost use Rattle.doc_server_script.specs.Escapes.{by_number, escaped, escaped_byte, hex_digit, spaceless, spaceless_byte};

use doc_page_parts::failure::Memory;
use doc_page_parts::heap::String;

/// Writes bytes, escaped, at the end of the buffer, where after a refusal part of them may stand.
#[tactic(auto, unfolding(crate::specs::Escapes::escaped), using(doc_page_parts::proofs::BufferSteps::front_same, doc_page_parts::proofs::BufferSteps::front_more))]
pub fn push_escaped(out: &mut String, bytes: &[u8]) -> Result<(), Memory>
    ensures ok { OnOk result (string_bytes out.new ≡ string_bytes out.old ++ escaped bytes.now) }
    ensures err { OnErr result (StartsWith (string_bytes out.new) (string_bytes out.old)) }
{
    out.reserve(bytes.len())?;
    for byte in bytes {
        push_byte(out, *byte)?;
    }
    Ok(())
}

/// The same, where no space may stand in what is written.
#[tactic(auto, unfolding(crate::specs::Escapes::spaceless), using(doc_page_parts::proofs::BufferSteps::front_same, doc_page_parts::proofs::BufferSteps::front_more))]
pub fn push_spaceless(out: &mut String, bytes: &[u8]) -> Result<(), Memory>
    ensures ok { OnOk result (string_bytes out.new ≡ string_bytes out.old ++ spaceless bytes.now) }
    ensures err { OnErr result (StartsWith (string_bytes out.new) (string_bytes out.old)) }
{
    out.reserve(bytes.len())?;
    for byte in bytes {
        push_spaceless_byte(out, *byte)?;
    }
    Ok(())
}

#[tactic(auto, using(doc_page_parts::proofs::BufferSteps::front_same, doc_page_parts::proofs::BufferSteps::front_more))]
fn push_spaceless_byte(out: &mut String, byte: u8) -> Result<(), Memory>
    ensures ok { OnOk result (string_bytes out.new ≡ string_bytes out.old ++ spaceless_byte byte) }
    ensures err { OnErr result (StartsWith (string_bytes out.new) (string_bytes out.old)) }
{
    if byte == b' ' {
        return push_plain(out, "\\x20");
    }
    push_byte(out, byte)
}

#[tactic(auto, using(doc_page_parts::proofs::BufferSteps::front_same, doc_page_parts::proofs::BufferSteps::front_more))]
fn push_byte(out: &mut String, byte: u8) -> Result<(), Memory>
    ensures ok { OnOk result (string_bytes out.new ≡ string_bytes out.old ++ escaped_byte byte) }
    ensures err { OnErr result (StartsWith (string_bytes out.new) (string_bytes out.old)) }
{
    match byte {
        b'\r' => push_plain(out, "\\r"),
        b'\n' => push_plain(out, "\\n"),
        b'\\' => push_plain(out, "\\\\"),
        b' '..=b'~' => push_ascii(out, byte),
        _ => push_number(out, byte),
    }
}

/// Writes a byte by its number.
#[tactic(auto, using(doc_page_parts::proofs::BufferSteps::front_same, doc_page_parts::proofs::BufferSteps::front_more))]
fn push_number(out: &mut String, byte: u8) -> Result<(), Memory>
    ensures ok { OnOk result (string_bytes out.new ≡ string_bytes out.old ++ by_number byte) }
    ensures err { OnErr result (StartsWith (string_bytes out.new) (string_bytes out.old)) }
{
    push_plain(out, "\\x")?;
    push_ascii(out, hex_digit(byte / 16))?;
    push_ascii(out, hex_digit(byte % 16))
}

/// Writes a text as it stands. A refused write leaves the buffer as it was.
pub fn push_plain(out: &mut String, text: &str) -> Result<(), Memory>
    ensures ok { OnOk result (string_bytes out.new ≡ string_bytes out.old ++ text.now) }
    ensures err { OnErr result (string_bytes out.new ≡ string_bytes out.old) }
{
    out.push_str(text)?;
    Ok(())
}

/// Writes a byte of ASCII. A refused write leaves the buffer as it was.
fn push_ascii(out: &mut String, byte: u8) -> Result<(), Memory>
    requires { byte < 128 }
    ensures ok { OnOk result (string_bytes out.new ≡ string_bytes out.old ++ byte ∷ []) }
    ensures err { OnErr result (string_bytes out.new ≡ string_bytes out.old) }
{
    out.push(byte as char)?;
    Ok(())
}

/// A lower case hexadecimal digit.
fn hex_digit(value: u8) -> u8
    requires { value < 16 }
    ensures digit { result ≡ hex_digit value }
    ensures ascii { result < 128 }
{
    if value < 10 {
        b'0' + value
    } else {
        b'a' - 10 + value
    }
}
