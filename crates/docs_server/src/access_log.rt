//! The log of requests: a line on standard error for each that was answered. No field of a request stands in it, and so no token; in
//! place of one the name of its reader may.

use crate::stamp::Stamp;
use crate::unanswered::Unanswered;
use doc_page_parts::failure::Memory;
use doc_page_parts::heap::{BTreeMap, Heap, String};
use doc_server_log_names::answered::Answered;
use doc_server_log_names::lines::Lines;
use doc_server_log_names::names::Names;
use doc_server_serving::net::handed::Handed;
use doc_server_serving::net::watch::Watch;
use std::cell::Cell;
use std::rt::Clock;
use std::time::Instant;

/// From how many bytes on the lines of a turn are printed before it is told whole.
const MOST_BYTES: usize = 16_384;

/// The log of a server. Where memory is lacking for what came on a connection, nothing more of it is written; where it is lacking for a
/// line, or a line can't be printed, that line is dropped.
#[derive(Drop)]
pub struct AccessLog<'a, P> {
    rt: &'a P,
    heap: Heap,
    form: Lines,
    /// The names of readers that have come since.
    names: &'a Cell<Option<Names>>,
    /// By the number of the connection.
    unanswered: BTreeMap<u64, Unanswered>,
    line: String,
    /// The lines of the turn that is told.
    lines: String,
    /// When it began.
    began: Option<Instant>,
    /// When its replies were handed over.
    handed: Stamp,
}

impl<'a, P: Clock + Eprint> AccessLog<'a, P> {
    /// A log in which nothing stands.
    pub fn new(
        rt: &'a P,
        heap: Heap,
        form: Lines,
        names: &'a Cell<Option<Names>>,
    ) -> AccessLog<'a, P> {
        AccessLog {
            rt,
            heap,
            form,
            names,
            unanswered: BTreeMap::new(heap),
            line: String::new(heap),
            lines: String::new(heap),
            began: None,
            handed: Stamp::Unread,
        }
    }

    /// Adds the line of a reply to the next request of this connection.
    fn add_line(&mut self, id: u64, reply: Handed) -> Result<(), Memory> {
        let Some(unanswered) = self.unanswered.get_mut(&id) else {
            return Ok(());
        };
        let answered = Answered {
            time: self.handed.moment(self.rt),
            connection: id,
            code: reply.code,
            bytes: reply.bytes,
            micros: Instant::now(self.rt).map_or(0, |now| unanswered.waited(now)),
        };
        self.line.clear();
        unanswered.take(self.heap, &self.form, &mut self.line, &answered)?;
        let _ = self.lines.push_str(self.line.as_str());
        Ok(())
    }

    /// Takes the names of other readers, where there are some.
    fn take_names(&mut self) {
        let Some(names) = self.names.take() else {
            return;
        };
        if let Lines::Json(askers) = &mut self.form {
            askers.names = names;
        }
    }

    /// Prints the lines.
    fn print(&mut self) {
        if self.lines.is_empty() {
            return;
        }
        let _ = self.rt.eprint(self.lines.as_str());
        self.lines.clear();
    }
}

impl<P: Clock + Eprint> Watch for AccessLog<'_, P> {
    fn begin_turn(&mut self) {
        self.began = Instant::now(self.rt).ok();
        self.handed = Stamp::Unread;
        self.take_names();
    }

    fn joined(&mut self, id: u64) {
        let _ = self.unanswered.insert(id, Unanswered::new(self.heap));
    }

    fn came(&mut self, id: u64, bytes: &[u8]) {
        let Some(unanswered) = self.unanswered.get_mut(&id) else {
            return;
        };
        if unanswered.add(bytes, self.began).is_err() {
            self.left(id);
        }
    }

    fn answered(&mut self, id: u64, reply: Handed) {
        if self.add_line(id, reply).is_err() {
            self.left(id);
        }
        if self.lines.len() >= MOST_BYTES {
            self.print();
        }
    }

    fn left(&mut self, id: u64) {
        let _ = self.unanswered.remove(&id);
    }

    fn end_turn(&mut self) {
        self.print();
    }
}
