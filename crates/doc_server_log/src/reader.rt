//! Who asked, as the log names them.

ghost use Rattle.std.specs.Prelude.{◌≡◌, ◌++◌, OnOk, string_bytes};
ghost use Rattle.doc_server_log.specs.Readers.{IsNamed, shown_reader};

use doc_page_parts::failure::Memory;
use doc_page_parts::heap::String;
use doc_server_names::reader_name::ReaderName;
use std::fmt::Write;

/// Who asked.
#[derive(Clone, Copy, Debug)]
pub enum Reader<'a> {
    /// A reader with a name.
    Named(&'a ReaderName),
    /// A reader without one, by the number of its row in the configuration.
    Row(usize),
    /// Nobody whom the configuration knows.
    Nobody,
}

impl Reader<'_> {
    /// Writes the name, `reader-` and the row's number, or `-`.
    pub fn push(self, out: &mut String) -> Result<(), Memory>
        ensures written { OnOk result
            (string_bytes out.new ≡ string_bytes out.old ++ shown_reader self.entry) }
        ensures named { OnOk result (IsNamed self.entry) }
    {
        match self {
            Reader::Named(name) => out.push_str(name.get())?,
            Reader::Row(row) => write!(out, "reader-{row}")?,
            Reader::Nobody => out.push_str("-")?,
        }
        Ok(())
    }
}
