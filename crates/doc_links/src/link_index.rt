//! Pages held under a path and a stamp, and asked for their links.

ghost use Rattle.std.specs.Prelude.{◌≡◌, ℕ, List as Seq, Bool, None, IfOk, IsTrue, OnOk, OnErr, is_some, map as mapped, option_copied};
ghost use Rattle.std.specs.Prelude.{option_map};
ghost use Rattle.std.specs.FinMap as map;
ghost use Rattle.std.specs.List.{filter, flat_map};
ghost use Rattle.doc_page_parts.specs.Sights.{leads_to_itself, seen};
ghost use Rattle.doc_links_pages.specs.Links.{backlinks, broken, broken_with, contents, page_at};
ghost use Rattle.doc_links_pages.specs.Names.{AreNames};
ghost use Rattle.doc_links_pages.specs.PageLinks.{IsOnce, page_links, pages_of};
ghost use Rattle.doc_links_pages.specs.declared.answers.Broken.{Broken as BrokenLink};
ghost use Rattle.doc_links_pages.specs.declared.page_links.PageLinks.{PageLinks};
ghost use Rattle.doc_links_seen.specs.SeenPages.{seen_page, seen_pages};
ghost use Rattle.doc_links_seen.specs.SeenSteps.{IsInOrder, pages_at};
ghost use Rattle.doc_links_seen.specs.Tellers.{AreToldOf};
ghost use Rattle.doc_links.specs.IndexSteps.{linked_at, links_to, without_counts};

use crate::entries::entries_of;
use crate::numbering::{Numbering, add_numbered, leave_page};
use crate::places::slots_at;
use crate::sources::{count_to, sources_in};
use crate::tally::tally_of;
use crate::written::{sources_at, written_in};
use doc_index::index::Index;
use doc_links_pages::answers::{Broken, Entry};
use doc_links_pages::known::Known;
use doc_links_seen::report::{broken_in, broken_numbered, broken_told};
use doc_links_seen::seen::{SeenPage, seen_in, slots_flagged};
use doc_links_seen::teller::Teller;
use doc_page_parts::failure::Memory;
use doc_page_parts::heap::{Heap, Vec};
use doc_page_parts::list::List;
use doc_page_parts::path::Path;
use doc_page_parts::rendered::{Heading, Piece, Rendered};
use doc_page_parts::sight::Sight;
use doc_resolve::LinkKind;
use std::marker::Model;

/// What is known of pages, each held under a path and a stamp. Contracts see the map from these.
///
/// The queries answer for the pages that a sight sees. They take time for these pages and what they answer, and for the pages that
/// are hidden only a look at their paths.
pub struct LinkIndex {
    heap: Heap,
    pages: Index<Known>,
    numbering: Numbering,
}

/// Written out, so that it is proved here once: what a derived drop does is proved wherever a value is let go.
impl Drop for LinkIndex {
    fn drop(self) {
        let LinkIndex {
            heap: _,
            pages: _,
            numbering: _,
        } = self;
    }
}

impl Model for LinkIndex {
    ghost use Rattle.std.specs.Coded.{coded_ℕ, coded_list, coded×};
    ghost use Rattle.std.specs.FinMap as map;
    ghost use Rattle.doc_index_tables.specs.Maps.{PairMap};
    ghost use Rattle.doc_links_pages.specs.contracts.page_links.PageLinks as one;
    ghost use Rattle.doc_links_pages.specs.declared.page_links.PageLinks.{PageLinks};
    ghost use Rattle.doc_links.specs.IndexSteps.{without_counts};

    ghost Value = { PairMap PageLinks };

    ghost coded = { map.code (coded× (coded_list coded_ℕ) coded_ℕ) one.the_row.coded };

    ghost view = { λ i. without_counts i.pages };

    ghost use Rattle.doc_links.specs.NumberingSteps.{HasNamed, HasNumbers};
    ghost use Rattle.doc_links_seen.specs.SeenSteps.{AreKeyed};

    ghost invariant = { λ i. AreKeyed i.pages × HasNumbers i.pages i.numbering × HasNamed i.numbering };
}

impl LinkIndex {
    /// An index that holds no page. It takes no memory.
    pub fn new(heap: Heap) -> LinkIndex
        ensures { result ≡ map.empty }
    {
        LinkIndex {
            heap,
            pages: Index::new(heap),
            numbering: Numbering::new(heap),
        }
    }

    /// Holds a page under a path and a stamp that none has. A refusal leaves the index as it was.
    pub fn add(&mut self, path: &Path, stamp: u64, rendered: &Rendered) -> Result<(), Memory>
        requires free { map.get self.old (path.now, stamp) ≡ None }
        ensures ok { OnOk result (self.new ≡ map.insert self.old (path.now, stamp)
            (page_links path.now rendered.now.pieces rendered.now.headings)) }
        ensures err { OnErr result (self.new ≡ self.old) }
    {
        self.add_parts(path, stamp, rendered.pieces.get(), rendered.headings.get())
    }

    /// Holds the page of these pieces and headings, as `add`.
    pub fn add_parts(
        &mut self,
        path: &Path,
        stamp: u64,
        pieces: &[Piece],
        headings: &[Heading],
    ) -> Result<(), Memory>
        requires free { map.get self.old (path.now, stamp) ≡ None }
        ensures ok { OnOk result (self.new ≡ map.insert self.old (path.now, stamp)
            (page_links path.now pieces.now headings.now)) }
        ensures err { OnErr result (self.new ≡ self.old) }
    {
        let (known, keys) = Known::with_keys(self.heap, path, pieces, headings)?;
        add_numbered(
            self.heap,
            &mut self.pages,
            &mut self.numbering,
            path,
            stamp,
            known,
            &keys,
        )
    }

    /// Lets the page under a path and a stamp go, and tells whether there was one. It takes no memory.
    pub fn drop_page(&mut self, path: &Path, stamp: u64) -> bool
        ensures answer { result ≡ map.contains_key self.old (path.now, stamp) }
        ensures rest { self.new ≡ map.remove self.old (path.now, stamp) }
    {
        leave_page(&self.pages, &mut self.numbering, path, stamp);
        self.pages.drop_page(path, stamp)
    }

    /// What each link of the page under a path and a stamp leads to, in order, also out of the site.
    pub fn links_of(&self, path: &Path, stamp: u64) -> Option<&[LinkKind]>
        ensures { option_copied result
            ≡ option_map (λ page. page.links) (map.get self.now (path.now, stamp)) }
    {
        let Some(known) = self.pages.get(path, stamp) else {
            return None;
        };
        Some(known.links())
    }

    /// The page under a path and a stamp, for one who knows that it is seen.
    pub fn page<'a>(&'a self, path: &'a Path, stamp: u64) -> Option<SeenPage<'a>>
        ensures { option_map seen_page result
            ≡ option_map (λ page. (path.now, page)) (map.get self.now (path.now, stamp)) }
    {
        let Some(known) = self.pages.get(path, stamp) else {
            return None;
        };
        Some(SeenPage::new(path, known))
    }

    /// How many links of the page under a path and a stamp a sight leads to a target, whether that is seen or not.
    pub fn links_to<S: Sight>(&self, path: &Path, stamp: u64, target: &Path, sight: &S) -> u64
        ensures { result ≡ links_to (S.goals sight.now) target.now
            (map.get self.now (path.now, stamp)) }
    {
        let Some(links) = self.links_of(path, stamp) else {
            return 0;
        };
        count_to(links, target, sight) as u64
    }

    /// The pages that a sight sees, by path.
    pub fn pages_seen<S: Sight>(&self, sight: &S) -> Result<Vec<SeenPage<'_>>, Memory>
        ensures { IfOk result (λ all.
            seen_pages all.items ≡ seen (S.goals sight.now) (pages_of self.now)) }
    {
        let slots = self.pages.in_order(self.heap)?;
        seen_in(self.heap, &self.pages, &slots, sight)
    }

    /// The pages that a sight sees, by path, with their headings.
    pub fn contents<S: Sight>(&self, sight: &S) -> Result<List<Entry>, Memory>
        ensures { IfOk result (λ all.
            all ≡ contents (seen (S.goals sight.now) (pages_of self.now))) }
    {
        let pages = self.pages_seen(sight)?;
        entries_of(self.heap, &pages)
    }

    /// The broken links of the pages that a sight sees, by page and place.
    pub fn broken<S: Sight>(&self, sight: &S) -> Result<List<Broken>, Memory>
        requires once { IsOnce self.now }
        ensures { IfOk result (λ all.
            all ≡ broken (S.goals sight.now) (seen (S.goals sight.now) (pages_of self.now))) }
    {
        let pages = self.pages_seen(sight)?;
        broken_in(self.heap, &pages, sight)
    }

    /// As `broken`, told of each page that is held, by path and then by stamp, whether it is seen. Behind the links of each page stands
    /// what the teller tells of it.
    pub fn broken_flagged<S: Sight, T: Teller>(
        &self,
        flags: &[bool],
        sight: &S,
        teller: &T,
    ) -> Result<List<Broken>, Memory>
        requires once { IsOnce self.now }
        requires seen { flags.now ≡ mapped
            (λ page. leads_to_itself (S.goals sight.now page.0) page.0) (pages_of self.now) }
        ensures { (behind : Seq ℕ → Seq BrokenLink)
            → AreToldOf (T.told teller.now) behind self.now → IfOk result (λ all.
            all ≡ broken_with behind (S.goals sight.now)
            (seen (S.goals sight.now) (pages_of self.now))) }
    {
        let slots = slots_seen(self.heap, &self.pages, flags)?;
        broken_numbered(
            self.heap,
            &self.pages,
            &slots,
            &self.numbering.names,
            &self.numbering.numbers,
            &self.numbering.named,
            sight,
            teller,
        )
    }

    /// The broken links of the pages that are held at these places, each a path and a stamp. They are all pages that the sight sees, and
    /// stand in the order of their paths. Behind the links of each page stands what the teller tells of it. No other page is looked at.
    pub fn broken_at<S: Sight, T: Teller>(
        &self,
        places: &[(Path, u64)],
        sight: &S,
        teller: &T,
    ) -> Result<List<Broken>, Memory>
        ensures { (behind : Seq ℕ → Seq BrokenLink) → AreToldOf (T.told teller.now) behind self.now
            → IsInOrder (flat_map (linked_at self.now) places.now) → IfOk result (λ all.
            all ≡ broken_with behind (S.goals sight.now)
            (flat_map (linked_at self.now) places.now)) }
    {
        let slots = slots_at(self.heap, &self.pages, places)?;
        broken_told(self.heap, &self.pages, &slots, sight, teller)
    }

    /// The pages that a sight sees and that have links to a page which it sees, by path, each with the number of these links. There
    /// are none where it doesn't see the page. It takes any path, and goes over the links of all pages that are seen, since an index
    /// knows no page's names: where they are known, the product serves `backlinks_under`.
    pub fn backlinks<S: Sight>(&self, target: &Path, sight: &S) -> Result<List<(Path, u64)>, Memory>
        requires once { IsOnce self.now }
        ensures { IfOk result (λ all.
            all ≡ backlinks (S.goals sight.now) (seen (S.goals sight.now) (pages_of self.now))
            target.now) }
    {
        let pages = self.pages_seen(sight)?;
        sources_in(self.heap, &pages, target, sight)
    }

    /// As `backlinks` of a page that is held and seen, told by which paths links lead to it: those that are written, or more. It looks
    /// at the pages that write one of these alone.
    pub fn backlinks_under<S: Sight>(
        &self,
        target: &Path,
        names: &[&Path],
        sight: &S,
    ) -> Result<List<(Path, u64)>, Memory>
        requires once { IsOnce self.now }
        requires target { IsTrue (is_some
            (page_at (seen (S.goals sight.now) (pages_of self.now)) target.now)) }
        requires names { AreNames (mapped (λ name. name.now) names.now) (S.goals sight.now)
            (seen (S.goals sight.now) (pages_of self.now)) target.now }
        ensures { IfOk result (λ all.
            all ≡ backlinks (S.goals sight.now) (seen (S.goals sight.now) (pages_of self.now))
            target.now) }
    {
        let tally = tally_of(self.heap, &self.pages, names, sight)?;
        tally.list(self.heap)
    }

    /// As `backlinks_under`, told of each page that is held, by path and then by stamp, whether it is seen. The sight is asked for no
    /// page: one that is hidden takes the time of a few steps, and each page that is held takes some, also where none links to the
    /// target.
    pub fn backlinks_flagged<S: Sight>(
        &self,
        target: &Path,
        names: &[&Path],
        flags: &[bool],
        sight: &S,
    ) -> Result<List<(Path, u64)>, Memory>
        requires once { IsOnce self.now }
        requires target { IsTrue (is_some
            (page_at (seen (S.goals sight.now) (pages_of self.now)) target.now)) }
        requires names { AreNames (mapped (λ name. name.now) names.now) (S.goals sight.now)
            (seen (S.goals sight.now) (pages_of self.now)) target.now }
        requires seen { flags.now ≡ mapped
            (λ page. leads_to_itself (S.goals sight.now page.0) page.0) (pages_of self.now) }
        ensures { IfOk result (λ all.
            all ≡ backlinks (S.goals sight.now) (seen (S.goals sight.now) (pages_of self.now))
            target.now) }
    {
        let slots = slots_seen(self.heap, &self.pages, flags)?;
        let counts = written_in(self.heap, &self.pages, names)?;
        sources_at(self.heap, &self.pages, &slots, &counts)
    }

    /// How many pages write one of these paths at most, whether they are seen or not. A guess, on which nothing rests: of so many pages
    /// `backlinks_under` asks the sight.
    pub fn reach_of_names(&self, names: &[&Path]) -> usize {
        let mut reach: usize = 0;
        for name in names {
            reach = reach.saturating_add(self.writers(name));
        }
        reach
    }

    /// How many pages write a path.
    fn writers(&self, name: &Path) -> usize {
        let Some(row) = self.pages.of_key(name.text()) else {
            return 0;
        };
        row.len()
    }
}

/// The slots of the pages that are flagged, by path and then by stamp.
fn slots_seen(heap: Heap, pages: &Index<Known>, flags: &[bool]) -> Result<Vec<u64>, Memory>
    ensures { (sees : Seq ℕ × PageLinks → Bool)
        → flags.now ≡ mapped sees (pages_of (without_counts pages.now)) → IfOk result (λ slots.
        pages_at pages.now slots.items ≡ filter sees (pages_of (without_counts pages.now))) }
{
    let slots = pages.in_order(heap)?;
    slots_flagged(heap, pages, &slots, flags)
}
