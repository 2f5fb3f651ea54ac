//! The pages for people that are kept.

ghost use Rattle.std.specs.Prelude.{◌≡◌, IfSome, IsTrue, OnOk, Some};

use crate::body::Body;
use crate::table::BodyTable;
use doc_page_parts::failure::Memory;
use doc_page_parts::heap::{Heap, String};
use doc_page_parts::path::Path;
use doc_page_parts::text::Text;
use doc_people::settings::{Browse, Offers};
use doc_store_readers::reader::Reader;

/// Pages for people by their paths, at most so many, each as it was made for one row. All were made with the same settings; where it is
/// asked with others it finds nothing, and to keep a page that was made with others drops all that was there. Where there is no room
/// for one more, all are dropped as well.
#[derive(Drop)]
pub struct Bodies {
    heap: Heap,
    capacity: usize,
    /// How many are kept, or more.
    count: usize,
    /// What all were made with.
    browse: Option<Browse>,
    rows: BodyTable,
}

impl Bodies {
    ghost use Rattle.doc_shelf_bodies.specs.Bodies.{Keeps, KeepsAtMost, KeepsNoMore, KeepsNothing, made_for};

    /// None, with room for so many. It takes no memory.
    pub fn new(heap: Heap, capacity: usize) -> Bodies
        ensures { KeepsNothing result }
    {
        Bodies {
            heap,
            capacity,
            count: 0,
            browse: None,
            rows: BodyTable::new(heap),
        }
    }

    /// The page at a path that was made for such a reader, where it is kept.
    pub fn find(
        &self,
        browse: &Browse,
        offers: Offers,
        path: &Path,
        reader: &Reader,
    ) -> Option<&Text>
        ensures { IfSome result (λ text.
            Keeps self.now (made_for browse.now offers path.now reader.now text.now)) }
    {
        if !self.are_of(browse) {
            return None;
        }
        let bodies = self.rows.of_path(path.text())?;
        for body in bodies.get() {
            if body.is_for(offers, reader) {
                return Some(&body.text);
            }
        }
        None
    }

    /// Keeps a page that was made so. Where memory is refused, all are dropped.
    pub fn keep(
        &mut self,
        browse: &Browse,
        offers: Offers,
        path: &Path,
        reader: &Reader,
        text: Text,
    )
        ensures { KeepsAtMost self.old (made_for browse.now offers path.now reader.now text)
            self.new }
    {
        if self.add(browse, offers, path, reader, text).is_err() {
            self.clear();
        }
    }

    /// Drops all. It takes no memory.
    pub fn clear(&mut self)
        ensures { KeepsNothing self.new }
    {
        self.rows.clear();
        self.count = 0;
    }

    /// Whether they were made with these settings.
    fn are_of(&self, browse: &Browse) -> bool
        ensures { IsTrue result → self.now.browse ≡ Some browse.now }
    {
        match &self.browse {
            Some(own) => own == browse,
            None => false,
        }
    }

    /// Before one more is kept: those that were made with other settings are dropped, and all where there is no room.
    fn make_room(&mut self, browse: &Browse) -> Result<(), Memory>
        ensures browse { OnOk result (self.new.browse ≡ Some browse.now) }
        ensures rows { KeepsNoMore self.old self.new }
    {
        if self.count < self.capacity && self.are_of(browse) {
            return Ok(());
        }
        self.clear();
        self.browse = Some(browse.copy(self.heap)?);
        Ok(())
    }

    fn add(
        &mut self,
        browse: &Browse,
        offers: Offers,
        path: &Path,
        reader: &Reader,
        text: Text,
    ) -> Result<(), Memory>
        ensures { KeepsAtMost self.old (made_for browse.now offers path.now reader.now text)
            self.new }
    {
        self.make_room(browse)?;
        let body = Body {
            reader: reader.copy(self.heap)?,
            offers,
            text,
        };
        let path = String::from_str(self.heap, path.text())?;
        self.rows.add(self.heap, path, body)?;
        self.count = self.count.saturating_add(1);
        Ok(())
    }
}
