//! What who reads the configuration anew tells the log and the door for monitors.

use doc_server_follow::followed::Followed;
use doc_server_log_names::names::Names;
use doc_server_status::identity::Identity;
use doc_server_status::standing::{JournalStanding, Standing};
use std::cell::Cell;
use std::ops::Range;

/// What who reads the configuration anew tells others.
#[derive(Drop)]
pub struct Shared {
    /// The names of new readers, until the log takes them.
    pub names: Cell<Option<Names>>,
    /// What stands, and what came of reloads.
    pub standing: Cell<Standing>,
}

impl Shared {
    /// Nothing is told yet.
    pub fn new() -> Shared {
        Shared {
            names: Cell::new(None),
            standing: Cell::new(Standing::NONE),
        }
    }

    /// A reload was done, so many seconds after the beginning of 1970.
    pub fn tell_reload(&self, seconds: u64) {
        let mut standing = self.standing.get();
        standing.reloads_done = standing.reloads_done.saturating_add(1);
        standing.reload_seconds = seconds;
        self.standing.set(standing);
    }

    /// A reload was refused.
    pub fn tell_refusal(&self) {
        let mut standing = self.standing.get();
        standing.reloads_refused = standing.reloads_refused.saturating_add(1);
        self.standing.set(standing);
    }

    /// A journal stands with this header, and so many of its records are in the site.
    pub fn tell_journal(&self, header: &[u8], records: usize) {
        let mut standing = self.standing.get();
        standing.journal = standing_of(header, records);
        self.standing.set(standing);
    }

    /// A turn has ended: so many pages stand, and where there is a journal its records end behind so many bytes. One that has grown since
    /// the turn before has a record more.
    pub fn tell_standing(&self, pages: usize, journal_bytes: Option<usize>) {
        let mut standing = self.standing.get();
        let bytes = journal_bytes.unwrap_or(0) as u64;
        if standing.journal_bytes != 0 && bytes > standing.journal_bytes {
            standing.journal = with_one_more(standing.journal);
        }
        standing.pages = pages as u64;
        standing.journal_bytes = bytes;
        self.standing.set(standing);
    }

    /// The same where another server's journal is followed, of which so many records are in the site.
    pub fn tell_followed(&self, pages: usize, followed: &Followed) {
        let mut standing = self.standing.get();
        standing.pages = pages as u64;
        standing.journal_bytes = followed.end() as u64;
        standing.journal = standing_of(followed.header(), followed.records());
        self.standing.set(standing);
    }
}

/// The place of the identity in a journal's header.
const IDENTITY: Range<usize> = 22..54;

/// The journal of this header, with so many records.
fn standing_of(header: &[u8], records: usize) -> Option<JournalStanding> {
    let identity = Identity::of(header.get(IDENTITY)?)?;
    Some(JournalStanding {
        identity,
        records: records as u64,
    })
}

/// The same journal with a record more.
fn with_one_more(journal: Option<JournalStanding>) -> Option<JournalStanding> {
    let JournalStanding { identity, records } = journal?;
    Some(JournalStanding {
        identity,
        records: records.saturating_add(1),
    })
}
