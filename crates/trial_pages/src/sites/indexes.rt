//! The two indexes of a site, in which each page is held under one stamp.

ghost use Rattle.doc_links_pages.specs.PageLinks.{IsOnce};

use doc_links::LinkIndex;
use doc_page_parts::failure::Memory;
use doc_page_parts::heap::Heap;
use doc_page_parts::path::Path;
use doc_page_parts::rendered::Rendered;
use doc_words::index::WordIndex;
use std::marker::Model;

/// The stamp of each page here.
pub const STAMP: u64 = 7;

/// An index of links and one of words, in which each page is held under the same stamp.
#[derive(Drop)]
pub struct Indexes {
    links: LinkIndex,
    words: WordIndex,
}

impl Model for Indexes {
    ghost use Rattle.doc_links.specs.StampSteps.{HasStamp};

    ghost Value = { Unit {0} };

    ghost view = { λ _. tt };

    ghost invariant = { λ i. HasStamp 7 i.links × HasStamp 7 i.words };
}

impl Indexes {
    pub fn new(heap: Heap) -> Indexes {
        Indexes {
            links: LinkIndex::new(heap),
            words: WordIndex::new(heap),
        }
    }

    pub fn links(&self) -> &LinkIndex
        ensures { IsOnce result.now }
    {
        &self.links
    }

    pub fn words(&self) -> &WordIndex {
        &self.words
    }

    /// Holds a page in the index of links, in place of the one under its path.
    pub fn add_links(&mut self, path: &Path, page: &Rendered) -> Result<(), Memory> {
        self.links.drop_page(path, STAMP);
        self.links.add(path, STAMP, page)
    }

    /// Holds a page in the index of words, in place of the one under its path.
    pub fn add_words(&mut self, path: &Path, page: &Rendered) -> Result<(), Memory> {
        self.words.drop_page(path, STAMP);
        self.words.add(path, STAMP, page)
    }

    /// Holds a page in both. Where the index of words is refused it, that of links holds it all the same.
    pub fn add(&mut self, path: &Path, page: &Rendered) -> Result<(), Memory> {
        self.add_links(path, page)?;
        self.add_words(path, page)
    }

    /// Lets the page under a path go from both.
    pub fn remove(&mut self, path: &Path) {
        self.links.drop_page(path, STAMP);
        self.words.drop_page(path, STAMP);
    }
}
