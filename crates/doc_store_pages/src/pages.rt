//! The pages of a site by their paths.

ghost use Rattle.std.specs.Prelude.{◌≡◌, ◌<◌, ◌^◌, IsTrue, IfErr, OnOk, OnErr, option_copied, option_map};
ghost use Rattle.std.specs.FinMap as map;
ghost use Rattle.doc_store_pages.specs.MoveSteps.{with_stamped};
ghost use Rattle.doc_store_pages.specs.SeenSteps.{seen_goal, sees_at};

use doc_page_parts::heap::{BTreeMap, Heap};
use doc_page_parts::path::Path;
use doc_store_readers::page::Page;
use doc_store_readers::reader::Reader;
use std::alloc::AllocFailed;
use std::collections::btree_map::Iter;
use std::marker::Model;

/// The pages of a site by their paths. Contracts see the map.
#[derive(Drop)]
pub struct Pages {
    entries: BTreeMap<Path, Page>,
}

impl Model for Pages {
    ghost use Rattle.std.specs.Coded.{coded_ℕ, coded_list};
    ghost use Rattle.std.specs.FinMap as map;
    ghost use Rattle.doc_store_readers.specs.Maps.{TextMap};
    ghost use Rattle.doc_store_readers.specs.Pages as pages;

    ghost Value = { TextMap pages.StampedPage };

    ghost coded = { map.code (coded_list coded_ℕ) pages.stamped_code };

    ghost view = { λ p. map.from_entries p.entries.entries };
}

impl Pages {
    pub fn new(heap: Heap) -> Pages
        ensures { result ≡ map.empty }
    {
        Pages {
            entries: BTreeMap::new(heap),
        }
    }

    pub fn len(&self) -> usize
        ensures len { result ≡ map.len self.now }
        ensures small { result < 2 ^ 63 }
    {
        self.entries.len()
    }

    pub fn get(&self, path: &Path) -> Option<&Page>
        ensures { option_copied result ≡ map.get self.now path.now }
    {
        self.entries.get(path)
    }

    /// A page with its path as it stands here.
    pub fn entry(&self, path: &Path) -> Option<(&Path, &Page)>
        ensures path { option_map (λ entry. entry.0.now) result
            ≡ option_map (λ _. path.now) (map.get self.now path.now) }
        ensures page { option_map (λ entry. entry.1.now) result ≡ map.get self.now path.now }
    {
        self.entries.get_key_value(path)
    }

    /// The pages with their paths, in the order of these.
    pub fn iter(&self) -> Iter<'_, Path, Page>
        ensures { result ≡ map.entries self.now }
    {
        self.entries.iter()
    }

    pub fn contains(&self, path: &Path) -> bool
        ensures { result ≡ map.contains_key self.now path.now }
    {
        self.entries.contains_key(path)
    }

    /// Whether a page stands under a path that the reader may see.
    pub fn sees(&self, reader: &Reader, path: &Path) -> bool
        ensures { result ≡ sees_at self.now reader.now path.now }
    {
        match self.get(path) {
            Some(page) => reader.may_see(page),
            None => false,
        }
    }

    /// Where an alias of a path leads the reader.
    pub fn seen_goal<'a>(&self, reader: &Reader, path: &'a Path) -> Option<&'a Path>
        ensures { option_copied result ≡ seen_goal self.now reader.now path.now }
    {
        if self.sees(reader, path) {
            Some(path)
        } else {
            None
        }
    }

    /// Adds a page under a path, or sets it. A page that is refused for want of memory comes back.
    pub fn insert(&mut self, heap: Heap, path: &Path, page: Page) -> Result<(), Page>
        ensures ok { OnOk result (self.new ≡ map.insert self.old path.now page) }
        ensures back { IfErr result (λ refused. refused ≡ page) }
        ensures err { OnErr result (self.new ≡ self.old) }
    {
        let Ok(path) = path.copy(heap) else {
            return Err(page);
        };
        match self.entries.insert(path, page) {
            Ok(_) => Ok(()),
            Err(refused) => {
                let AllocFailed { value: (_, page) } = refused;
                Err(page)
            }
        }
    }

    /// Sets the page of a path that has one. It takes no memory.
    pub fn replace(&mut self, path: &Path, page: Page)
        requires { IsTrue (map.contains_key self.old path.now) }
        ensures { self.new ≡ map.insert self.old path.now page }
    {
        let Some(old) = self.entries.get_mut(path) else {
            return;
        };
        *old = page;
    }

    /// Takes the page of a path out. It takes no memory.
    pub fn take(&mut self, path: &Path) -> Option<Page>
        ensures page { result ≡ map.get self.old path.now }
        ensures rest { self.new ≡ map.remove self.old path.now }
    {
        self.entries.remove(path)
    }

    /// Takes the page of one path into the room under another, with another stamp. It takes no memory.
    pub fn rename(&mut self, from: &Path, to: &Path, stamp: u64)
        requires stands { IsTrue (map.contains_key self.old from.now) }
        requires room { IsTrue (map.contains_key (map.remove self.old from.now) to.now) }
        ensures { self.new ≡ with_stamped self.old from.now to.now stamp }
    {
        if let Some(page) = self.take(from) {
            self.replace(to, page.stamped(stamp));
        }
    }
}
