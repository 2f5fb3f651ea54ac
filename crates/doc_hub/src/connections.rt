//! The connections of a hub, by number.

ghost use Rattle.std.specs.Prelude.{◌≡◌, ◌≤◌, Some, None, Ok, length, IfOk, OnOk, OnErr, option_copied};
ghost use Rattle.std.specs.FinMap as map;
ghost use Rattle.doc_page_parts.specs.Refusals.{Gives};
ghost use Rattle.doc_http.specs.Requests.{IsNext, BeginsWithRequest, UsesAtMost};
ghost use Rattle.doc_hub.specs.Connections.{pushed, finished};
ghost use Rattle.doc_hub.specs.declared.connection.Connection.{Connection};

use crate::connection::Connection;
use doc_http::request::Next;
use doc_hub_events::refusal::PushError;
use doc_page_parts::failure::Memory;
use doc_page_parts::heap::{BTreeMap, Heap};
use std::marker::Model;

/// Connections by number. Contracts see a map.
#[derive(Drop)]
pub struct Connections {
    entries: BTreeMap<u64, Connection>,
}

impl Model for Connections {
    ghost use Rattle.std.specs.Coded.{coded_ℕ};
    ghost use Rattle.std.specs.FinMap as map;
    ghost use Rattle.std.specs.Ordering.{nat_cmp};
    ghost use Rattle.doc_hub.specs.contracts.connection.Connection as one;
    ghost use Rattle.doc_hub.specs.declared.connection.Connection.{Connection};

    ghost Value = { map.FinMap nat_cmp Connection };

    ghost coded = { map.code coded_ℕ one.the_row.coded };

    ghost view = { λ c. map.from_entries c.entries.entries };
}

impl Connections {
    pub fn new(heap: Heap) -> Self
        ensures { result ≡ map.empty }
    {
        Connections {
            entries: BTreeMap::new(heap),
        }
    }

    pub fn get(&self, id: u64) -> Option<&Connection>
        ensures { option_copied result ≡ map.get self.now id }
    {
        self.entries.get(&id)
    }

    /// Sets a connection.
    pub fn insert(&mut self, id: u64, connection: Connection) -> Result<(), Memory>
        ensures ok { OnOk result (self.new ≡ map.insert self.old id connection) }
        ensures err { OnErr result (self.new ≡ self.old) }
    {
        self.entries.insert(id, connection)?;
        Ok(())
    }

    /// Adds unread bytes to a connection.
    pub fn push(&mut self, id: u64, bytes: &[u8]) -> Result<(), PushError>
        ensures { Gives PushError.Memory (pushed self.old id bytes.now) self.old self.new result }
    {
        let Some(connection) = self.entries.get_mut(&id) else {
            return Err(PushError::NoConnection);
        };
        connection.push(bytes)
    }

    /// What the unread bytes of a connection begin with; nothing yet, where there is no such connection.
    /// Bytes that an earlier call looked at are not looked at again.
    pub fn next_request(&mut self, id: u64) -> Result<Next, Memory>
        ensures found { (c : Connection) → map.get self.old id ≡ Some c →
            IfOk result (λ next. IsNext c.unread next) }
        ensures within { (c : Connection) → map.get self.old id ≡ Some c →
            IfOk result (UsesAtMost (length c.unread)) }
        ensures memory { (c : Connection) → map.get self.old id ≡ Some c →
            OnErr result (BeginsWithRequest c.unread) }
        ensures none { map.get self.old id ≡ None → result ≡ Ok Next.More }
        ensures same { self.new ≡ self.old }
    {
        let Some(connection) = self.entries.get_mut(&id) else {
            return Ok(Next::More);
        };
        connection.next_request()
    }

    /// Takes a connection away, and says whether there was one. It takes no memory.
    pub fn remove(&mut self, id: u64) -> bool
        ensures left { self.new ≡ map.remove self.old id }
        ensures stood { result ≡ map.contains_key self.old id }
    {
        self.entries.remove(&id).is_some()
    }

    /// Takes the bytes of an answered request, or all of them where the connection closes. It takes
    /// no memory, and does nothing where there is no such connection.
    pub fn finish(&mut self, id: u64, used: usize, last: bool)
        requires { (c : Connection) → map.get self.old id ≡ Some c → used ≤ length c.unread }
        ensures finished { (c : Connection) → map.get self.old id ≡ Some c →
            self.new ≡ map.insert self.old id (finished c used last) }
        ensures none { map.get self.old id ≡ None → self.new ≡ self.old }
    {
        let Some(connection) = self.entries.get_mut(&id) else {
            return;
        };
        connection.finish(used, last);
    }
}
