//! How bytes are printed.

use doc_page_parts::failure::Memory;
use doc_page_parts::heap::String;
use std::str::from_utf8;

/// Up to how many bytes are printed as a text.
const MOST: usize = 2_000;

/// FNV-1a of 64 bits: where it begins, and what it multiplies by (the Internet-Draft on FNV, section 5).
const OFFSET: u64 = 0xcbf2_9ce4_8422_2325;

const PRIME: u64 = 0x0000_0100_0000_01b3;

/// Prints bytes as the text that they are, and where they are none, or a long one, how many there are and their FNV-1a.
pub fn push_told(out: &mut String, bytes: &[u8]) -> Result<(), Memory> {
    if bytes.len() > MOST {
        return push_digest(out, bytes);
    }
    match from_utf8(bytes) {
        Ok(text) => Ok(write!(out, "{text:?}")?),
        Err(_) => push_digest(out, bytes),
    }
}

fn push_digest(out: &mut String, bytes: &[u8]) -> Result<(), Memory> {
    let count = bytes.len();
    let digest = digest_of(bytes);
    write!(out, "{count} bytes, {digest:016x}")?;
    Ok(())
}

fn digest_of(bytes: &[u8]) -> u64 {
    let mut value = OFFSET;
    for byte in bytes {
        value = (value ^ u64::from(*byte)).wrapping_mul(PRIME);
    }
    value
}
