//! The lines of a log, in the form that was asked for.

ghost use Rattle.std.specs.Prelude.{◌≡◌, ◌++◌, IfOk, OnOk, string_bytes};
ghost use Rattle.doc_server_log.specs.Readers.{shown_reader};
ghost use Rattle.doc_server_log_names.specs.Lines.{IsLineOf, asking_in, line_by};

use crate::answered::Answered;
use crate::names::Names;
use doc_http::request::Request;
use doc_page_parts::failure::Memory;
use doc_page_parts::heap::{Heap, String};
use doc_server_log::entry::Entry;
use doc_server_log::json_line::push_json;
use doc_server_log::plain_line::push_plain;
use doc_server_log::reader::Reader;
use doc_server_log::request_line::first_line;

/// By what it is told who asks.
#[derive(Drop)]
pub struct Askers {
    pub names: Names,
    /// Whether readers may sign in by a password.
    pub login: bool,
}

/// The form of a log's lines.
#[derive(Drop)]
pub enum Lines {
    /// Six fields with a space between. Who asks isn't among them.
    Plain,
    /// A JSON object a line.
    Json(Askers),
}

impl Lines {
    /// Adds the line of a request that was answered so. Of its head the line has the method and the target; of its Authorization field it
    /// has which reader of the configuration that names, if it names one.
    pub fn push_request(
        &self,
        heap: Heap,
        out: &mut String,
        answered: &Answered,
        request: &Request,
    ) -> Result<(), Memory>
        ensures { OnOk result (IsLineOf self.now answered.now (asking_in self.now request.now)
            request.now.method request.now.target (string_bytes out.old) (string_bytes out.new)) }
    {
        let reader = self.asking(heap, request)?;
        let entry = answered.entry(reader, request.method.get(), request.target.get());
        self.push(out, &entry)
    }

    /// Adds the line of bytes that are no request and were answered so. It has the method and the target of their first line, where that
    /// has the form of a request's, and nothing else of them.
    pub fn push_bytes(
        &self,
        out: &mut String,
        answered: &Answered,
        bytes: &[u8],
    ) -> Result<(), Memory> {
        let (method, target) = match first_line(bytes) {
            Some(line) => line,
            None => ("", ""),
        };
        self.push(out, &answered.entry(Reader::Nobody, method, target))
    }

    /// Who asks by a request, where lines tell that.
    fn asking(&self, heap: Heap, request: &Request) -> Result<Reader<'_>, Memory>
        ensures { IfOk result (λ reader. shown_reader reader ≡ asking_in self.now request.now) }
    {
        match self {
            Lines::Plain => Ok(Reader::Nobody),
            Lines::Json(askers) => askers.names.asking(heap, askers.login, request),
        }
    }

    /// Adds the line of an entry.
    fn push(&self, out: &mut String, entry: &Entry<'_>) -> Result<(), Memory>
        ensures { OnOk result
            (string_bytes out.new ≡ string_bytes out.old ++ line_by self.now entry.now) }
    {
        match self {
            Lines::Plain => push_plain(out, entry),
            Lines::Json(_) => push_json(out, entry),
        }
    }
}
