//! Numbers in lines.

ghost use Rattle.std.specs.Prelude.{◌≡◌, ◌++◌, decimal, string_bytes, OnOk};

use doc_page_parts::failure::Memory;
use doc_page_parts::heap::String;
use std::fmt::Write;

/// Writes a number in decimal digits.
pub fn push_number(out: &mut String, number: u64) -> Result<(), Memory>
    ensures { OnOk result (string_bytes out.new ≡ string_bytes out.old ++ decimal number) }
{
    write!(out, "{}", number)?;
    Ok(())
}
