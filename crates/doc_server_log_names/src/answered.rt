//! How a request was answered.

ghost use Rattle.std.specs.Prelude.{◌≡◌};
ghost use Rattle.doc_server_log.specs.Readers.{shown_reader};
ghost use Rattle.doc_server_log_names.specs.Lines.{IsEntryOf};

use doc_server_log::entry::Entry;
use doc_server_log::moment::Moment;
use doc_server_log::reader::Reader;

/// How a request was answered.
#[derive(Clone, Copy)]
pub struct Answered {
    /// When the first reply of the turn had been handed over; `None` where the clock failed.
    pub time: Option<Moment>,
    /// The number of the connection.
    pub connection: u64,
    /// The code of the reply's status line.
    pub code: u16,
    /// How many bytes the reply has, its head among them.
    pub bytes: usize,
    /// For how many microseconds the request has waited for its reply.
    pub micros: u128,
}

impl Answered {
    /// What a line tells of a request that was answered so.
    pub(crate) fn entry<'a>(
        &self,
        reader: Reader<'a>,
        method: &'a str,
        target: &'a str,
    ) -> Entry<'a>
        ensures { IsEntryOf self.now (shown_reader reader.entry) method.now target.now result }
    {
        Entry {
            time: self.time,
            connection: self.connection,
            reader,
            method,
            target,
            code: self.code,
            bytes: self.bytes,
            micros: self.micros,
        }
    }
}
