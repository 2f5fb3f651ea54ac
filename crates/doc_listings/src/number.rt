//! Numbers in lists.

ghost use Rattle.std.specs.Prelude.{◌≡◌, ◌++◌, decimal, string_bytes, OnOk, OnErr};
ghost use Rattle.std.specs.Io.{StartsWith};

use doc_page_parts::failure::Memory;
use doc_page_parts::heap::String;
use std::fmt::Write;

/// The most digits of a number.
pub const MOST_DIGITS: usize = 20;

/// Writes a number in decimal digits. They are made in a buffer of their own.
#[tactic(auto, using(doc_page_parts::proofs::BufferSteps::front_same, doc_page_parts::proofs::BufferSteps::front_more))]
pub fn push_number(out: &mut String, digits: &mut String, number: u64) -> Result<(), Memory>
    ensures ok { OnOk result (string_bytes out.new ≡ string_bytes out.old ++ decimal number) }
    ensures err { OnErr result (StartsWith (string_bytes out.new) (string_bytes out.old)) }
{
    set_digits(digits, number)?;
    out.push_str(digits.as_str())?;
    Ok(())
}

/// Writes a number alone.
fn set_digits(digits: &mut String, number: u64) -> Result<(), Memory>
    ensures { OnOk result (string_bytes digits.new ≡ decimal number) }
{
    digits.clear();
    write!(digits, "{}", number)?;
    Ok(())
}
