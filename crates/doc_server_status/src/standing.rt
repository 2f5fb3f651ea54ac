//! What monitors are told of beside replies and connections.

ghost use Rattle.std.specs.Prelude.{◌≡◌};
ghost use Rattle.doc_server_status.specs.Records.{records_of};

use crate::identity::Identity;

/// The journal whose records are in the site.
#[derive(Clone, Copy, Debug)]
pub struct JournalStanding {
    /// Which journal it is.
    pub identity: Identity,
    /// How many of its records are in the site.
    pub records: u64,
}

/// What stands behind a turn, and what came of reloads.
#[derive(Clone, Copy, Debug)]
pub struct Standing {
    /// Pages that stand.
    pub pages: u64,
    /// Bytes of the journal up to behind its last record, 0 without a journal.
    pub journal_bytes: u64,
    /// The journal, where there is one: the server's own, or the one that it follows.
    pub journal: Option<JournalStanding>,
    /// Reloads that were done: readers or pages are others since.
    pub reloads_done: u64,
    /// Reloads that were refused.
    pub reloads_refused: u64,
    /// When one was last done, in seconds since 1970; 0 where none was.
    pub reload_seconds: u64,
}

impl Standing {
    /// Nothing.
    pub const NONE: Standing = Standing {
        pages: 0,
        journal_bytes: 0,
        journal: None,
        reloads_done: 0,
        reloads_refused: 0,
        reload_seconds: 0,
    };

    /// How many records of the journal are in the site, 0 without a journal.
    pub fn records(&self) -> u64
        ensures { result ≡ records_of self.now.journal }
    {
        match &self.journal {
            Some(journal) => journal.records,
            None => 0,
        }
    }
}
