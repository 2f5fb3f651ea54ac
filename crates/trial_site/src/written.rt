//! How bytes are written in answers.

use doc_page_parts::failure::Memory;
use doc_page_parts::heap::String;

/// Runs of as many equal bytes are written as a repetition.
const LONG_RUN: u64 = 32;

/// Writes a text as it is.
pub fn push(out: &mut String, text: &str) -> Result<(), Memory> {
    Ok(out.push_str(text)?)
}

/// Writes bytes behind a word.
pub fn push_after(out: &mut String, word: &str, bytes: &[u8]) -> Result<(), Memory> {
    push(out, word)?;
    push_bytes(out, bytes)
}

/// A byte that stands some times in a row.
#[derive(Clone, Copy)]
struct Run {
    byte: u8,
    count: u64,
}

/// Writes bytes, for printing.
pub fn push_bytes(out: &mut String, bytes: &[u8]) -> Result<(), Memory> {
    let mut run = Run { byte: 0, count: 0 };
    for byte in bytes {
        if *byte == run.byte {
            run.count = run.count.wrapping_add(1);
        } else {
            push_run(out, run)?;
            run = Run {
                byte: *byte,
                count: 1,
            };
        }
    }
    push_run(out, run)
}

/// Writes a run, a long one as a repetition.
fn push_run(out: &mut String, run: Run) -> Result<(), Memory> {
    let Run { byte, count } = run;
    if count >= LONG_RUN {
        write!(out, "{{{count}*")?;
        push_byte(out, byte)?;
        return push(out, "}");
    }
    for _ in 0..count {
        push_byte(out, byte)?;
    }
    Ok(())
}

fn push_byte(out: &mut String, byte: u8) -> Result<(), Memory> {
    match byte {
        b'\n' => push(out, "\\n"),
        b'\r' => push(out, "\\r"),
        b'\t' => push(out, "\\t"),
        b'\\' => push(out, "\\\\"),
        b'{' | b'}' | 0..=31 | 127..=255 => Ok(write!(out, "\\x{byte:02x}")?),
        _ => Ok(out.push(char::from(byte))?),
    }
}
