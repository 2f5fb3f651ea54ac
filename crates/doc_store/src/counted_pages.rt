//! The pages of a site by their paths, counted by their groups.

ghost use Rattle.std.specs.Prelude.{◌≡◌, ◌<◌, ◌^◌, Some, IsTrue, IfOk, OnOk, OnErr, length, map as mapped, option_copied, option_map};
ghost use Rattle.std.specs.FinMap as map;
ghost use Rattle.std.specs.List.{filter};
ghost use Rattle.doc_store_pages.specs.MoveSteps.{with_stamped};
ghost use Rattle.doc_store_pages.specs.SeenSteps.{seen_goal, sees_at};
ghost use Rattle.doc_store_readers.specs.Maps.{map_values};
ghost use Rattle.doc_store_readers.specs.Pages.{empty_page};
ghost use Rattle.doc_store_readers.specs.Sites.{may_see};

use crate::group_sets::GroupSets;
use crate::numbers::Numbers;
use doc_page_parts::failure::Memory;
use doc_page_parts::heap::{Heap, Vec};
use doc_page_parts::path::Path;
use doc_store_pages::pages::Pages;
use doc_store_readers::page::Page;
use doc_store_readers::reader::Reader;
use std::collections::btree_map::Iter;
use std::marker::Model;

/// The pages of a site by their paths, and beside them how many have each set of groups, so that those that a reader sees are counted by
/// sets, and the number of each page's set, so that one walk tells which they are. Contracts see the map of the pages.
#[derive(Drop)]
pub struct CountedPages {
    pages: Pages,
    numbers: Numbers,
    sets: GroupSets,
}

impl Model for CountedPages {
    ghost use Rattle.std.specs.Coded.{coded_ℕ, coded_list};
    ghost use Rattle.std.specs.FinMap as map;
    ghost use Rattle.doc_store.specs.GroupSets.{AreNumbered};
    ghost use Rattle.doc_store_readers.specs.Maps.{TextMap};
    ghost use Rattle.doc_store_readers.specs.Pages.{StampedPage, stamped_code};

    ghost Value = { TextMap StampedPage };

    ghost coded = { map.code (coded_list coded_ℕ) stamped_code };

    ghost view = { λ p. p.pages };

    ghost invariant = { λ p. AreNumbered p.pages p.numbers p.sets };
}

impl CountedPages {
    pub fn new(heap: Heap) -> CountedPages
        ensures { result ≡ map.empty }
    {
        CountedPages {
            pages: Pages::new(heap),
            numbers: Numbers::new(heap),
            sets: GroupSets::new(heap),
        }
    }

    pub fn len(&self) -> usize
        ensures { result ≡ map.len self.now }
    {
        self.pages.len()
    }

    pub fn get(&self, path: &Path) -> Option<&Page>
        ensures { option_copied result ≡ map.get self.now path.now }
    {
        self.pages.get(path)
    }

    /// A page with its path as it stands here.
    pub fn entry(&self, path: &Path) -> Option<(&Path, &Page)>
        ensures path { option_map (λ entry. entry.0.now) result
            ≡ option_map (λ _. path.now) (map.get self.now path.now) }
        ensures page { option_map (λ entry. entry.1.now) result ≡ map.get self.now path.now }
    {
        self.pages.entry(path)
    }

    /// The pages with their paths, in the order of these.
    pub fn iter(&self) -> Iter<'_, Path, Page>
        ensures { result ≡ map.entries self.now }
    {
        self.pages.iter()
    }

    pub fn contains(&self, path: &Path) -> bool
        ensures { result ≡ map.contains_key self.now path.now }
    {
        self.pages.contains(path)
    }

    /// Whether a page stands under a path that the reader may see.
    pub fn sees(&self, reader: &Reader, path: &Path) -> bool
        ensures { result ≡ sees_at self.now reader.now path.now }
    {
        self.pages.sees(reader, path)
    }

    /// Where an alias of a path leads the reader.
    pub fn seen_goal<'a>(&self, reader: &Reader, path: &'a Path) -> Option<&'a Path>
        ensures { option_copied result ≡ seen_goal self.now reader.now path.now }
    {
        self.pages.seen_goal(reader, path)
    }

    /// How many of the pages a reader may see. It takes a step for each set of groups that pages have.
    pub fn count_seen(&self, reader: &Reader) -> usize
        ensures { result
            ≡ length (filter (λ page. may_see (Some reader.now) page.page) (map.values self.now)) }
    {
        let all = self.pages.len();
        if reader.owner {
            return all;
        }
        self.sets.count_met(&reader.groups)
    }

    /// Of each page, in the order of the paths, whether the reader sees it. It takes a step for each set of groups, and reads of each page
    /// the number of its set.
    pub fn flags(&self, heap: Heap, reader: &Reader) -> Result<Vec<bool>, Memory>
        ensures { IfOk result (λ flags. flags.items
            ≡ mapped (λ page. may_see (Some reader.now) page.1)
            (map.entries (map_values (λ p. p.page) self.now))) }
    {
        let seen = self.sets.seen(heap, reader)?;
        self.numbers.flags(heap, &seen)
    }

    /// Sets the page of a path, and answers the stamp of the page that stood there. It takes memory only for a new path and for
    /// groups that no page has.
    pub fn set(&mut self, heap: Heap, path: &Path, page: Page) -> Result<Option<u64>, Memory>
        ensures ok { OnOk result (self.new ≡ map.insert self.old path.now page) }
        ensures before { IfOk result (λ stamp. stamp
            ≡ option_map (λ page. page.stamp) (map.get self.old path.now)) }
        ensures err { OnErr result (self.new ≡ self.old) }
    {
        let number = self.sets.add(heap, page.groups())?;
        let Some(old) = self.pages.get(path) else {
            if self.numbers.insert(heap, path, number).is_err() {
                self.sets.remove(page.groups());
                return Err(Memory);
            }
            if let Err(refused) = self.pages.insert(heap, path, page) {
                self.numbers.take(path);
                self.sets.remove(refused.groups());
                return Err(Memory);
            }
            return Ok(None);
        };
        let before = old.stamp();
        self.sets.remove(old.groups());
        self.pages.replace(path, page);
        self.numbers.replace(path, number);
        Ok(Some(before))
    }

    /// Takes the page of a path out. It takes no memory.
    pub fn take(&mut self, path: &Path) -> Option<Page>
        ensures page { result ≡ map.get self.old path.now }
        ensures rest { self.new ≡ map.remove self.old path.now }
    {
        let taken = self.pages.take(path)?;
        self.numbers.take(path);
        self.sets.remove(taken.groups());
        Some(taken)
    }

    /// Makes room for a page under a path that has none.
    pub fn make_room(&mut self, heap: Heap, path: &Path) -> Result<(), Memory>
        ensures ok { OnOk result (self.new ≡ map.insert self.old path.now empty_page) }
        ensures err { OnErr result (self.new ≡ self.old) }
    {
        self.set(heap, path, Page::empty(heap))?;
        Ok(())
    }

    /// Takes the page of one path into the room under another, with another stamp. It takes no memory.
    pub fn rename(&mut self, from: &Path, to: &Path, stamp: u64)
        requires stands { IsTrue (map.contains_key self.old from.now) }
        requires room { IsTrue (map.contains_key (map.remove self.old from.now) to.now) }
        ensures { self.new ≡ with_stamped self.old from.now to.now stamp }
    {
        let Some(room) = self.pages.get(to) else {
            return;
        };
        self.sets.remove(room.groups());
        self.pages.rename(from, to, stamp);
        self.numbers.rename(from, to);
    }
}
