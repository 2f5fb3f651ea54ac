//! Renderings that are held under a path and a stamp.

ghost use Rattle.std.specs.Prelude.{◌≡◌, None, false, IfOk, OnOk, OnErr, map as mapped, option_copied};
ghost use Rattle.std.specs.FinMap as map;
ghost use Rattle.doc_shelf_pages.specs.Held.{by_path};
ghost use Rattle.doc_shelf_pages.specs.RenderingSteps.{HasNoImages, flagged, lines_at, texts_of, with_copy};

use crate::lined::{Lined, flagged_lines};
use doc_index::index::Index;
use doc_page_parts::failure::Memory;
use doc_page_parts::heap::{BTreeMap, Heap, String, Vec};
use doc_page_parts::path::Path;
use doc_page_parts::rendered::Rendered;
use doc_page_parts::text::Text;
use doc_shelf_packed::PackedPage;
use std::marker::Model;

/// Renderings, packed, each held under a path and a stamp, with the lines that contents have of its page at that path. Contracts see the map of
/// the renderings.
#[derive(Drop)]
pub struct Renderings {
    heap: Heap,
    pages: Index<Lined>,
    /// Whether one with images was held ever.
    imaged: bool,
}

impl Model for Renderings {
    ghost use Rattle.std.specs.Coded.{coded_ℕ, coded_list, coded×};
    ghost use Rattle.std.specs.FinMap as map;
    ghost use Rattle.doc_index_tables.specs.Maps.{PairMap};
    ghost use Rattle.doc_page_parts.specs.contracts.rendered.Rendered as one;
    ghost use Rattle.doc_page_parts.specs.declared.rendered.Rendered.{Rendered};
    ghost use Rattle.doc_shelf_pages.specs.RenderingSteps.{renderings_in};

    ghost Value = { PairMap Rendered };

    ghost coded = { map.code (coded× (coded_list coded_ℕ) coded_ℕ) one.the_row.coded };

    ghost view = { λ r. renderings_in r.pages };

    ghost use Rattle.doc_shelf_pages.specs.RenderingSteps.{AreImaged, AreLined};

    ghost invariant = { λ r. AreLined r.pages × AreImaged r.imaged r.pages };
}

impl Renderings {
    pub fn new(heap: Heap) -> Renderings
        ensures { result ≡ map.empty }
    {
        Renderings {
            heap,
            pages: Index::new(heap),
            imaged: false,
        }
    }

    pub fn get(&self, path: &Path, stamp: u64) -> Option<&PackedPage>
        ensures { option_copied result ≡ map.get self.now (path.now, stamp) }
    {
        let Some(lined) = self.pages.get(path, stamp) else {
            return None;
        };
        Some(&lined.page)
    }

    /// Whether a rendering may have images. It answers so too where one had and has gone.
    pub fn may_have_images(&self) -> bool
        ensures { result ≡ false → HasNoImages self.now }
    {
        self.imaged
    }

    /// The lines that contents have of the pages whose flags are set, where each page has one, in the order of the paths.
    pub fn lines_of(&self, flags: &[bool]) -> Result<Vec<&Text>, Memory>
        ensures { IfOk result (λ lines. texts_of lines.items
            ≡ mapped lines_at (flagged flags.now (by_path self.now))) }
    {
        let slots = self.pages.in_order(self.heap)?;
        flagged_lines(self.heap, &self.pages, &slots, flags)
    }

    /// Holds a rendering under a path and a stamp that none has. A refusal drops it and leaves the others.
    pub fn add(&mut self, path: &Path, stamp: u64, page: Rendered) -> Result<(), Memory>
        requires free { map.get self.old (path.now, stamp) ≡ None }
        ensures ok { OnOk result (self.new
            ≡ map.insert self.old (path.now, stamp) page) }
        ensures err { OnErr result (self.new ≡ self.old) }
    {
        let page = PackedPage::of(self.heap, page)?;
        self.hold(path, stamp, page)
    }

    fn hold(&mut self, path: &Path, stamp: u64, page: PackedPage) -> Result<(), Memory>
        requires free { map.get self.old (path.now, stamp) ≡ None }
        ensures ok { OnOk result (self.new
            ≡ map.insert self.old (path.now, stamp) page) }
        ensures err { OnErr result (self.new ≡ self.old) }
    {
        let bare = page.images().is_empty();
        let lined = Lined::new(self.heap, path, page)?;
        let keys = no_keys(self.heap);
        self.imaged = self.imaged | !bare;
        self.pages.add(path, stamp, lined, &keys)
    }

    /// Holds a copy of the rendering under one path and stamp, where there is one, under another path and stamp, that none has. A
    /// refusal changes nothing.
    pub fn add_copy(
        &mut self,
        from: &Path,
        from_stamp: u64,
        to: &Path,
        stamp: u64,
    ) -> Result<(), Memory>
        requires free { map.get self.old (to.now, stamp) ≡ None }
        ensures ok { OnOk result (self.new
            ≡ with_copy self.old (map.get self.old (from.now, from_stamp)) to.now stamp) }
        ensures err { OnErr result (self.new ≡ self.old) }
    {
        let Some(page) = self.get(from, from_stamp) else {
            return Ok(());
        };
        let copy = page.copy(self.heap)?;
        self.hold(to, stamp, copy)
    }

    /// Lets the rendering under a path and a stamp go, and tells whether there was one. It takes no memory.
    pub fn drop_page(&mut self, path: &Path, stamp: u64) -> bool
        ensures answer { result ≡ map.contains_key self.old (path.now, stamp) }
        ensures rest { self.new ≡ map.remove self.old (path.now, stamp) }
    {
        self.pages.drop_page(path, stamp)
    }
}

/// Renderings are held without keys.
fn no_keys(heap: Heap) -> BTreeMap<String, u64> {
    BTreeMap::new(heap)
}
