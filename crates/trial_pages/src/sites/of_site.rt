//! A site with its indexes, and its edits.

use crate::sites::indexes::Indexes;
use crate::sites::page::{Kind, page_of};
use crate::sites::stop::Stop;
use doc_page_parts::heap::Heap;
use doc_page_parts::path::Path;
use doc_page_parts::rendered::Rendered;
use doc_store::groups::Groups;
use doc_store::moving::MoveError;
use doc_store::store::{EditError, Put, Store};

/// The pages of a site, and the indexes of them.
#[derive(Drop)]
pub struct Site {
    pub store: Store,
    pub indexes: Indexes,
}

impl Site {
    pub fn new(heap: Heap) -> Site {
        Site {
            store: Store::new(heap),
            indexes: Indexes::new(heap),
        }
    }

    /// What is made of the page of a path.
    fn page(&self, heap: Heap, path: &Path) -> Result<Rendered, Stop> {
        match self.store.get(path) {
            Some(page) => page_of(heap, Kind::Lines, page.text()),
            None => Err(Stop::NoCall),
        }
    }

    /// Holds the page of a path in the index of links for `add_links`, in that of words for `add_words`, and else in both.
    pub fn hold(&mut self, heap: Heap, path: &Path, name: &str) -> Result<(), Stop> {
        let page = self.page(heap, path)?;
        let held = match name {
            "add_links" => self.indexes.add_links(path, &page),
            "add_words" => self.indexes.add_words(path, &page),
            _ => self.indexes.add(path, &page),
        };
        drop(page);
        Ok(held?)
    }

    /// Puts a page into the store and both indexes.
    pub fn put(
        &mut self,
        heap: Heap,
        path: &Path,
        groups: &Groups,
        text: &str,
    ) -> Result<Result<Put, EditError>, Stop> {
        let put = self.store.put(path, groups, text);
        if put.is_ok() {
            self.hold(heap, path, "put")?;
        }
        Ok(put)
    }

    /// Moves a page, in both indexes too.
    pub fn move_page(
        &mut self,
        heap: Heap,
        from: &Path,
        to: &Path,
    ) -> Result<Result<(), MoveError>, Stop> {
        let moved = self.store.move_page(from, to);
        if moved.is_ok() {
            self.indexes.remove(from);
            self.hold(heap, to, "move")?;
        }
        Ok(moved)
    }

    /// Removes a page, from both indexes too, and answers whether it stood there.
    pub fn remove(&mut self, path: &Path) -> bool {
        self.indexes.remove(path);
        self.store.remove(path)
    }
}
