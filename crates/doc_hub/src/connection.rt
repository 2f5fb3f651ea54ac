//! One connection.

ghost use Rattle.std.specs.Prelude.{◌≡◌, ◌≤◌, length, IfOk, OnErr};
ghost use Rattle.doc_page_parts.specs.Refusals.{Gives};
ghost use Rattle.doc_http.specs.Requests.{IsNext, BeginsWithRequest, UsesAtMost};
ghost use Rattle.doc_hub.specs.Connections.{pushed_onto, finished};

use doc_http::request::Next;
use doc_http::unread::Unread;
use doc_hub_events::refusal::PushError;
use doc_page_parts::failure::Memory;

/// The unread bytes of a connection, and whether it is closed.
#[derive(Drop)]
pub struct Connection {
    pub unread: Unread,
    pub closed: bool,
}

/// How many unread bytes a connection may have.
pub const BACKLOG: usize = 4_194_304;

impl Connection {
    /// Adds unread bytes.
    #[tactic(auto, unfolding(crate::specs::Connections::backlog_limit))]
    pub fn push(&mut self, bytes: &[u8]) -> Result<(), PushError>
        ensures { Gives PushError.Memory (pushed_onto self.old bytes.now) self.old self.new result }
    {
        if self.closed {
            return Err(PushError::Closed);
        }
        if bytes.len() > BACKLOG || self.unread.get().len() > BACKLOG - bytes.len() {
            return Err(PushError::Backlog);
        }
        self.unread.push(bytes)?;
        Ok(())
    }

    /// What the unread bytes begin with.
    pub fn next_request(&mut self) -> Result<Next, Memory>
        ensures found { IfOk result (λ next. IsNext self.old.unread next) }
        ensures within { IfOk result (UsesAtMost (length self.old.unread)) }
        ensures memory { OnErr result (BeginsWithRequest self.old.unread) }
        ensures same { self.new ≡ self.old }
    {
        self.unread.next_request()
    }

    /// Takes the bytes of an answered request, or all of them where the connection closes.
    pub fn finish(&mut self, used: usize, last: bool)
        requires { used ≤ length self.old.unread }
        ensures { self.new ≡ finished self.old used last }
    {
        self.closed = last;
        if last {
            self.unread.clear();
        } else {
            self.unread.take_front(used);
        }
    }
}
