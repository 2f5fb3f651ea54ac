//! Texts of a configuration and numbers between others.

ghost use Rattle.std.specs.Prelude.{◌≡◌, ◌++◌, OnOk, decimal, string_bytes};
ghost use Rattle.doc_server_lint.specs.Lines.{named, numbered};

use doc_page_parts::failure::Memory;
use doc_page_parts::heap::String;
use doc_server_config::bad_file::push_shown;
use std::fmt::Write;

/// Writes a text of a configuration between two others: of a control character each byte stands as `%` and two digits.
pub(crate) fn push_named(
    out: &mut String,
    before: &str,
    name: &str,
    behind: &str,
) -> Result<(), Memory>
    ensures { OnOk result (string_bytes out.new
        ≡ string_bytes out.old ++ named before.now name.now behind.now) }
{
    out.push_str(before)?;
    push_shown(out, name)?;
    out.push_str(behind)?;
    Ok(())
}

/// Writes a number between two texts.
pub(crate) fn push_numbered(
    out: &mut String,
    before: &str,
    number: usize,
    behind: &str,
) -> Result<(), Memory>
    ensures { OnOk result (string_bytes out.new
        ≡ string_bytes out.old ++ numbered before.now number behind.now) }
{
    out.push_str(before)?;
    push_number(out, number)?;
    out.push_str(behind)?;
    Ok(())
}

/// Writes a number in decimal digits.
fn push_number(out: &mut String, number: usize) -> Result<(), Memory>
    ensures { OnOk result (string_bytes out.new ≡ string_bytes out.old ++ decimal number) }
{
    write!(out, "{number}")?;
    Ok(())
}
