//! What is kept of pages.

ghost use Rattle.std.specs.Prelude.{◌≡◌, false, IfOk, OnOk, OnErr, map as mapped, option_copied};
ghost use Rattle.std.specs.FinMap as map;
ghost use Rattle.doc_shelf_pages.specs.Held.{by_path};
ghost use Rattle.doc_shelf_pages.specs.KeptPages.{IsFree, carried, none_kept, with_page, without_page};
ghost use Rattle.doc_shelf_pages.specs.RenderingSteps.{HasNoImages, flagged, lines_at, texts_of};

use crate::keeping::kept_of;
use crate::renderings::Renderings;
use doc_links::LinkIndex;
use doc_page_parts::failure::Memory;
use doc_page_parts::heap::{Heap, Vec};
use doc_page_parts::path::Path;
use doc_page_parts::rendered::Rendered;
use doc_page_parts::text::Text;
use doc_shelf_packed::PackedPage;
use doc_words::index::WordIndex;
use std::marker::Model;

/// What is kept of pages, each under its path and a stamp: its links and headings, its words, and its rendering, whose texts are kept
/// or dropped, as it is told when it is made. Contracts see which, and the three maps.
pub struct KeptPages {
    heap: Heap,
    with_texts: bool,
    links: LinkIndex,
    words: WordIndex,
    renderings: Renderings,
}

/// Written out, so that it is proved here once: what a derived drop does is proved wherever a value is let go.
impl Drop for KeptPages {
    fn drop(self) {
        let KeptPages {
            heap: _,
            with_texts: _,
            links: _,
            words: _,
            renderings: _,
        } = self;
    }
}

impl Model for KeptPages {
    ghost use Rattle.doc_links_pages.specs.contracts.page_links.PageLinks as link_row;
    ghost use Rattle.doc_page_parts.specs.contracts.rendered.Rendered as page_row;
    ghost use Rattle.doc_shelf_pages.specs.KeptPages.{Kept, kept_code};

    ghost Value = { Kept };

    ghost coded = { kept_code link_row.the_row.coded page_row.the_row.coded };

    ghost view = { λ k. record {
      with_texts = k.with_texts;
      links = k.links;
      words = k.words;
      renderings = k.renderings;
    } };
}

impl KeptPages {
    /// Nothing is kept, and of pages to come the texts or not. It takes no memory.
    pub fn new(heap: Heap, with_texts: bool) -> KeptPages
        ensures { result ≡ none_kept with_texts }
    {
        KeptPages {
            heap,
            with_texts,
            links: LinkIndex::new(heap),
            words: WordIndex::new(heap),
            renderings: Renderings::new(heap),
        }
    }

    /// Whether the texts of pages are kept.
    pub fn keeps_texts(&self) -> bool
        ensures { result ≡ self.now.with_texts }
    {
        self.with_texts
    }

    /// The links and headings of the pages.
    pub fn links(&self) -> &LinkIndex
        ensures { result.now ≡ self.now.links }
    {
        &self.links
    }

    /// The words of the pages.
    pub fn words(&self) -> &WordIndex
        ensures { result.now ≡ self.now.words }
    {
        &self.words
    }

    /// The rendering under a path and a stamp, as it is kept.
    pub fn get(&self, path: &Path, stamp: u64) -> Option<&PackedPage>
        ensures { option_copied result ≡ map.get self.now.renderings (path.now, stamp) }
    {
        self.renderings.get(path, stamp)
    }

    /// Whether a page may have images. It answers so too where one had and has gone.
    pub fn may_have_images(&self) -> bool
        ensures { result ≡ false → HasNoImages self.now.renderings }
    {
        self.renderings.may_have_images()
    }

    /// The lines that contents have of the pages whose flags are set, where each page has one, in the order of the paths.
    pub fn lines_of(&self, flags: &[bool]) -> Result<Vec<&Text>, Memory>
        ensures { IfOk result (λ lines. texts_of lines.items
            ≡ mapped lines_at (flagged flags.now (by_path self.now.renderings))) }
    {
        self.renderings.lines_of(flags)
    }

    /// Keeps a page under a path and a stamp under which none is kept. Memory is taken for its links, for its words and then for its
    /// rendering. A refusal drops what was added and leaves all as it was.
    pub fn add(&mut self, path: &Path, stamp: u64, page: Rendered) -> Result<(), Memory>
        requires free { IsFree self.old path.now stamp }
        ensures ok { OnOk result (self.new ≡ with_page self.old path.now stamp page) }
        ensures err { OnErr result (self.new ≡ self.old) }
    {
        self.links.add(path, stamp, &page)?;
        if self.words.add(path, stamp, &page).is_err() {
            self.links.drop_page(path, stamp);
            return Err(Memory);
        }
        let page = kept_of(self.heap, self.with_texts, page);
        if self.renderings.add(path, stamp, page).is_err() {
            self.words.drop_page(path, stamp);
            self.links.drop_page(path, stamp);
            return Err(Memory);
        }
        Ok(())
    }

    /// Keeps the page under one path and stamp, where there is one, under another path and stamp too, under which none is kept: its
    /// links as they are at that path, and its words and its rendering as they are. Its pieces are made anew for the links. Memory is
    /// taken in the same order, and nothing is rendered. A refusal drops what was added and leaves all as it was.
    pub fn carry(
        &mut self,
        from: &Path,
        from_stamp: u64,
        to: &Path,
        stamp: u64,
    ) -> Result<(), Memory>
        requires free { IsFree self.old to.now stamp }
        ensures ok { OnOk result (self.new
            ≡ carried self.old from.now from_stamp to.now stamp) }
        ensures err { OnErr result (self.new ≡ self.old) }
    {
        let Some(page) = self.renderings.get(from, from_stamp) else {
            return Ok(());
        };
        let pieces = page.pieces(self.heap)?;
        self.links
            .add_parts(to, stamp, pieces.get(), page.headings())?;
        if self.words.add_copy(from, from_stamp, to, stamp).is_err() {
            self.links.drop_page(to, stamp);
            return Err(Memory);
        }
        if self
            .renderings
            .add_copy(from, from_stamp, to, stamp)
            .is_err()
        {
            self.words.drop_page(to, stamp);
            self.links.drop_page(to, stamp);
            return Err(Memory);
        }
        Ok(())
    }

    /// Lets the page under a path and a stamp go, and tells whether its rendering was kept. It takes no memory.
    pub fn drop_page(&mut self, path: &Path, stamp: u64) -> bool
        ensures answer { result ≡ map.contains_key self.old.renderings (path.now, stamp) }
        ensures rest { self.new ≡ without_page self.old path.now stamp }
    {
        self.links.drop_page(path, stamp);
        self.words.drop_page(path, stamp);
        self.renderings.drop_page(path, stamp)
    }
}
