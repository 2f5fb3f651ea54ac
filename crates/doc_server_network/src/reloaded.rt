//! What a reload of pages made.

ghost use Rattle.std.specs.Prelude.{◌≡◌};
ghost use Rattle.doc_server_network.specs.Reloads.{count_of_puts, count_of_removals};

use doc_store::site_edit::SiteEdit;

/// How many pages a reload has put and removed, and how many records of the journal stand behind the configuration's pages.
#[derive(Clone, Copy, Debug)]
pub struct Reloaded {
    pub put: usize,
    pub removed: usize,
    pub records: usize,
}

impl Reloaded {
    /// What these edits are, behind so many records.
    pub fn by(edits: &[SiteEdit], records: usize) -> Reloaded
        ensures put { result.put ≡ count_of_puts edits.now }
        ensures removed { result.removed ≡ count_of_removals edits.now }
        ensures records { result.records ≡ records }
    {
        let mut put = 0;
        let mut removed = 0;
        for edit in edits {
            match edit {
                SiteEdit::Put(_, _, _) => put += 1,
                SiteEdit::Remove(_) => removed += 1,
                SiteEdit::Move(_, _) => {}
            }
        }
        Reloaded {
            put,
            removed,
            records,
        }
    }
}
