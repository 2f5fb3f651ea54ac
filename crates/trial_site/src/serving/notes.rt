//! Who watches a network, and what was told of it.

use doc_page_parts::bytes::Bytes;
use doc_page_parts::failure::Memory;
use doc_page_parts::heap::{Heap, String, Vec};
use doc_server_serving::net::handed::Handed;
use doc_server_serving::net::watch::Watch;

/// What was told of a connection.
#[derive(Drop)]
enum Told {
    Joined,
    Came(Bytes),
    Answered(Handed),
    Left,
}

#[derive(Drop)]
struct Note {
    id: u64,
    told: Told,
}

/// All that was told, one behind another.
#[derive(Drop)]
pub struct Notes {
    heap: Heap,
    notes: Vec<Note>,
    /// Whether memory was lacking for one.
    is_short: bool,
}

/// What was told of one connection.
#[derive(Clone, Copy)]
pub struct Summary<'a> {
    /// What its peer has to send.
    input: &'a [u8],
    pub has_joined: bool,
    has_left: bool,
    /// Whether all that came is what the peer has to send.
    is_front: bool,
    came: usize,
    pub answers: usize,
}

impl Notes {
    pub fn new(heap: Heap) -> Notes {
        Notes {
            heap,
            notes: Vec::new(heap),
            is_short: false,
        }
    }

    /// Whether memory was lacking for a note.
    pub fn is_short(&self) -> bool {
        self.is_short
    }

    fn add(&mut self, id: u64, told: Told) {
        if self.notes.push(Note { id, told }).is_err() {
            self.is_short = true;
        }
    }

    fn add_came(&mut self, id: u64, bytes: &[u8]) {
        match Bytes::copy_of(self.heap, bytes) {
            Ok(copy) => self.add(id, Told::Came(copy)),
            Err(Memory) => self.is_short = true,
        }
    }

    /// What was told of a connection whose peer has to send this.
    pub fn summary<'a>(&self, id: u64, input: &'a [u8]) -> Summary<'a> {
        let mut summary = Summary {
            input,
            has_joined: false,
            has_left: false,
            is_front: true,
            came: 0,
            answers: 0,
        };
        for note in &self.notes {
            if note.id == id {
                summary.add(&note.told);
            }
        }
        summary
    }

    /// Adds the codes and the lengths of the replies that were told of a connection.
    pub fn push_replies(&self, out: &mut String, id: u64) -> Result<(), Memory> {
        for note in &self.notes {
            if note.id == id {
                push_reply(out, &note.told)?;
            }
        }
        Ok(())
    }
}

fn push_reply(out: &mut String, told: &Told) -> Result<(), Memory> {
    let Told::Answered(reply) = told else {
        return Ok(());
    };
    let code = reply.code;
    let bytes = reply.bytes;
    write!(out, ", {code} {bytes}")?;
    Ok(())
}

impl Summary<'_> {
    fn add(&mut self, told: &Told) {
        match told {
            Told::Joined => self.has_joined = true,
            Told::Came(bytes) => self.add_came(bytes.get()),
            Told::Answered(_) => self.answers = self.answers.saturating_add(1),
            Told::Left => self.has_left = true,
        }
    }

    fn add_came(&mut self, bytes: &[u8]) {
        let rest = self.input.get(self.came..).unwrap_or(&[]);
        self.is_front = self.is_front && rest.starts_with(bytes);
        self.came = self.came.saturating_add(bytes.len());
    }

    /// Writes how much of what the peer has to send came, and whether it has left.
    pub fn push(&self, out: &mut String) -> Result<(), Memory> {
        let came = self.came;
        if !self.is_front {
            out.push_str("; other bytes came")?;
        } else if came == self.input.len() {
            out.push_str("; all came")?;
        } else {
            write!(out, "; {came} came")?;
        }
        if self.has_left {
            out.push_str(", left")?;
        }
        Ok(())
    }
}

/// Who notes all that passes on the connections.
#[derive(Drop)]
pub struct Watcher<'a> {
    pub notes: &'a mut Notes,
}

impl Watch for Watcher<'_> {
    fn begin_turn(&mut self) {}

    fn joined(&mut self, id: u64) {
        self.notes.add(id, Told::Joined);
    }

    fn came(&mut self, id: u64, bytes: &[u8]) {
        self.notes.add_came(id, bytes);
    }

    fn answered(&mut self, id: u64, reply: Handed) {
        self.notes.add(id, Told::Answered(reply));
    }

    fn left(&mut self, id: u64) {
        self.notes.add(id, Told::Left);
    }

    fn end_turn(&mut self) {}
}
