//! What the server counts.

ghost use Rattle.std.specs.Prelude.{◌≡◌, ◌-◌, ◌==◌, max, if◌then◌else◌};
ghost use Rattle.doc_server_status.specs.Counts.{after_join, after_reply, nothing_counted};

use crate::replies::Replies;
use crate::standing::Standing;

/// What the server has counted since its start. A count stands still where it can't grow.
#[derive(Debug, Drop)]
pub struct Counters {
    pub replies: Replies,
    /// Replies 401.
    pub unauthorized: u64,
    /// Replies 201 and 204, by which edits are answered, and nothing else is.
    pub edits: u64,
    /// Bytes of replies.
    pub bytes: u64,
    /// Connections that stand.
    pub connections: u64,
    /// How many stood at once at most.
    pub connections_most: u64,
    /// Microseconds of the longest turn since the metrics were looked at.
    pub turn_micros_most: u64,
    /// What stands, as it was told last.
    pub standing: Standing,
}

impl Counters {
    /// Nothing was counted yet.
    pub fn new() -> Counters
        ensures { result ≡ nothing_counted }
    {
        Counters {
            replies: Replies::NONE,
            unauthorized: 0,
            edits: 0,
            bytes: 0,
            connections: 0,
            connections_most: 0,
            turn_micros_most: 0,
            standing: Standing::NONE,
        }
    }

    /// A reply of this code and so many bytes was handed over.
    pub fn replied(&mut self, code: u16, bytes: usize)
        ensures { self.new ≡ after_reply code bytes self.old }
    {
        self.replies = self.replies.with(code);
        self.unauthorized = self.unauthorized.saturating_add(one_where(code == 401));
        self.edits = self
            .edits
            .saturating_add(one_where(code == 201 || code == 204));
        self.bytes = self.bytes.saturating_add(bytes as u64);
    }

    /// A connection came.
    pub fn joined(&mut self)
        ensures { self.new ≡ after_join self.old }
    {
        self.connections = self.connections.saturating_add(1);
        self.connections_most = self.connections_most.max(self.connections);
    }

    /// A connection went.
    pub fn left(&mut self)
        ensures { self.new ≡ record self.old { connections = self.old.connections - 1 } }
    {
        self.connections = self.connections.saturating_sub(1);
    }

    /// A turn took so many microseconds.
    pub fn turned(&mut self, micros: u64)
        ensures { self.new
            ≡ record self.old { turn_micros_most = max self.old.turn_micros_most micros } }
    {
        self.turn_micros_most = self.turn_micros_most.max(micros);
    }

    /// The metrics were looked at.
    pub fn looked(&mut self)
        ensures { self.new ≡ record self.old { turn_micros_most = 0 } }
    {
        self.turn_micros_most = 0;
    }

    /// This stands behind a turn.
    pub fn stood(&mut self, standing: Standing)
        ensures { self.new ≡ record self.old { standing = standing } }
    {
        self.standing = standing;
    }
}

fn one_where(test: bool) -> u64
    ensures { result ≡ (if test then 1 else 0) }
{
    if test { 1 } else { 0 }
}
