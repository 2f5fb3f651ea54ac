//! A sight that counts how often it is asked.

ghost use Rattle.std.specs.Prelude.{◌≡◌};
ghost use Rattle.doc_store_readers.specs.Sites.{goal_in};

use doc_page_parts::path::Path;
use doc_page_parts::sight::Sight;
use doc_store::site_sight::SiteSight;
use std::cell::Cell;

/// What a reader sees, and how often it was asked whether the page of one path is seen.
#[derive(Drop)]
pub struct Counting<'a> {
    sight: &'a SiteSight<'a>,
    watched: &'a str,
    asked: Cell<u64>,
}

impl<'a> Counting<'a> {
    pub fn new(sight: &'a SiteSight<'a>, watched: &'a str) -> Counting<'a> {
        Counting {
            sight,
            watched,
            asked: Cell::new(0),
        }
    }

    /// The sight that isn't counted.
    pub fn plain(&self) -> &'a SiteSight<'a>
        ensures { result.now ≡ self.now.sight.now }
    {
        self.sight
    }

    pub fn asked(&self) -> u64 {
        self.asked.get()
    }
}

impl<'a> Sight for Counting<'a> {
    ghost goals = { λ c. goal_in c.sight.now };

    fn sees(&self, path: &Path) -> bool {
        if path.text() == self.watched {
            self.asked.set(self.asked.get().saturating_add(1));
        }
        self.sight.sees(path)
    }

    fn goal(&self, path: &Path) -> Option<&Path> {
        self.sight.goal(path)
    }
}
