//! A reader as the configuration lists it.

ghost use Rattle.std.specs.Prelude.{◌≡◌};
ghost use Rattle.doc_server_log.specs.Readers.{shown_reader};
ghost use Rattle.doc_server_log_names.specs.Names.{shown_row};

use doc_server_log::reader::Reader;
use doc_server_names::reader_name::ReaderName;

/// A reader as the configuration lists it.
#[derive(Debug, Drop)]
pub struct ListedReader {
    /// The number of its row, from 1 on.
    pub row: usize,
    pub name: Option<ReaderName>,
}

impl ListedReader {
    /// The reader as a line names it.
    pub fn reader(&self) -> Reader<'_>
        ensures { shown_reader result ≡ shown_row self.now }
    {
        match &self.name {
            Some(name) => Reader::Named(name),
            None => Reader::Row(self.row),
        }
    }
}
