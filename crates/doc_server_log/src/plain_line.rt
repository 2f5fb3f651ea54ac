//! A line of the log in its plain form.

ghost use Rattle.std.specs.Prelude.{◌≡◌, ◌++◌, OnOk, string_bytes};
ghost use Rattle.doc_server_log.specs.PlainLines.{plain_line};

use crate::entry::Entry;
use crate::request_line::push_request_line;
use doc_page_parts::failure::Memory;
use doc_page_parts::heap::String;
use std::fmt::Write;

/// Writes the line of an entry: six fields with a space between. Who asked, and when, isn't among them.
pub fn push_plain(out: &mut String, entry: &Entry<'_>) -> Result<(), Memory>
    ensures { OnOk result (string_bytes out.new ≡ string_bytes out.old ++ plain_line entry.now) }
{
    write!(out, "{} ", entry.connection)?;
    push_request_line(out, entry.method, entry.target)?;
    write!(out, " {} {} {}\n", entry.code, entry.bytes, entry.micros)?;
    Ok(())
}
