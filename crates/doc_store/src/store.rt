//! The store: the pages of a site with their aliases, and edits of them.

ghost use Rattle.std.specs.Prelude.{◌≡◌, ◌+◌, ◌<◌, ◌^◌, Some, Ok, IfOk, OnOk, OnErr, is_some, length, map as mapped, option_map};
ghost use Rattle.std.specs.FinMap as map;
ghost use Rattle.doc_page_parts.specs.Refusals.{Gives};
ghost use Rattle.doc_store_readers.specs.Groups.{texts_of};
ghost use Rattle.doc_store.specs.Names.{is_name, names_of};
ghost use Rattle.doc_store_readers.specs.Pages.{without_stamps};
ghost use Rattle.doc_store_readers.specs.Sites.{may_see, view_of};
ghost use Rattle.doc_store.specs.Store.{IsStore, StoreState, empty_store, fits, fits_in, may_move};
ghost use Rattle.doc_store.specs.Store.{move_fits, moved_in, put_into, stamp_after, with_page, without_page};

use crate::aliases::Aliases;
use crate::counted_pages::CountedPages;
use crate::moving::{MoveError, move_page};
use crate::site_sight::SiteSight;
use doc_page_parts::failure::Memory;
use doc_page_parts::heap::{Heap, Vec};
use doc_page_parts::path::Path;
use doc_store_readers::groups::Groups;
use doc_store_readers::page::Page;
use doc_store_readers::reader::Reader;
use std::collections::btree_map::Iter;
use std::marker::Model;
use thiserror::Error;

/// What a put did.
#[derive(Clone, Copy, Debug, PartialEq, Eq)]
pub enum Put {
    /// No page stood under the path; it may have been an alias.
    Created,
    /// The page of the path has other groups and another text now, and its aliases as before.
    Replaced,
}

/// Why an edit was refused.
#[derive(Clone, Copy, Debug, PartialEq, Eq, Error)]
pub enum EditError {
    /// A medium stands under the path, which no store asks: a hub does, before its store.
    #[error("a medium stands there already")]
    Taken,
    /// The text has more than 1,048,576 bytes.
    #[error("the text is too long")]
    TooLong,
    /// 10,000 pages stand and the path has none, or no stamp is left: 2^64 - 1 puts and moves were
    /// accepted.
    #[error("the store is full")]
    StoreFull,
    #[error("{}", Memory)]
    Memory,
}

impl From<Memory> for EditError {
    ghost use Rattle.std.specs.Prelude.{◌≡◌};
    ghost use Rattle.doc_store.specs.declared.store.EditError.TheVariants as refusals;

    ghost from_gives = { λ _ e. e ≡ refusals.Memory };

    fn from(_e: Memory) -> EditError {
        EditError::Memory
    }
}

/// How many bytes the text of a page may have.
const TEXT_LIMIT: usize = 1_048_576;

/// How many pages may stand.
const PAGE_LIMIT: usize = 10_000;

/// How many aliases may stand.
const ALIAS_LIMIT: usize = 10_000;

/// The pages of a site with their aliases. A move leaves the old path as an alias of the page; no
/// alias is the path of a page, and each leads to one. It keeps the heap that it was made with.
/// Contracts see the site, the stamps of the pages, and how many puts and moves were accepted.
pub struct Store {
    heap: Heap,
    pages: CountedPages,
    aliases: Aliases,
    puts: u64,
}

/// Written out, so that it is proved here once: what a derived drop does is proved wherever a value is let go.
impl Drop for Store {
    fn drop(self) {
        let Store {
            heap: _,
            pages: _,
            aliases: _,
            puts: _,
        } = self;
    }
}

impl Model for Store {
    ghost use Rattle.doc_store.specs.Store.{IsStore, StoreState, state_of, store_code};

    ghost Value = { StoreState };

    ghost coded = { store_code };

    ghost view = { λ s. state_of s.pages s.aliases s.puts };

    ghost invariant = { λ s. IsStore (state_of s.pages s.aliases s.puts) };
}

impl Store {
    /// A store without pages.
    pub fn new(heap: Heap) -> Store
        ensures { result ≡ empty_store }
    {
        Store {
            heap,
            pages: CountedPages::new(heap),
            aliases: Aliases::new(heap),
            puts: 0,
        }
    }

    /// Whether `put` refuses a text under a path, but for `Memory`. It takes no memory.
    pub fn fits(&self, path: &Path, text: &str) -> Result<(), EditError>
        ensures answer { result ≡ fits_in self.now path.now text.now }
        ensures room { OnOk result (self.now.puts + 1 < 2 ^ 64) }
    {
        fits(self.pages.len(), self.pages.contains(path), self.puts, text)
    }

    /// Sets the page of a path, and gives it the next stamp. A page that stands there keeps its
    /// aliases; an alias of another page is taken from it. Refused are, in this order, `TooLong`,
    /// `StoreFull` and `Memory`; a refused put changes nothing.
    pub fn put(&mut self, path: &Path, groups: &Groups, text: &str) -> Result<Put, EditError>
        ensures { Gives EditError.Memory
            (put_into self.old path.now groups.now text.now) self.old self.new result }
    {
        self.fits(path, text)?;
        match self.put_fitting(path, groups, text)? {
            Some(_) => Ok(Put::Replaced),
            None => Ok(Put::Created),
        }
    }

    /// The same put of a text that `fits` takes, which isn't asked again. It answers the stamp of the page that stood
    /// there, if one did.
    pub fn put_fitting(
        &mut self,
        path: &Path,
        groups: &Groups,
        text: &str,
    ) -> Result<Option<u64>, Memory>
        requires fits { fits_in self.old path.now text.now ≡ Ok tt }
        ensures put { OnOk result (self.new
            ≡ with_page self.old path.now (record { groups = groups.now; text = text.now })) }
        ensures stamp { IfOk result (λ stamp. stamp ≡ map.get self.old.stamps path.now) }
        ensures stood { IfOk result (λ stamp. is_some stamp
            ≡ map.contains_key self.old.site.pages path.now) }
        ensures refused { OnErr result (self.new ≡ self.old) }
    {
        let page = Page::copy_of(self.heap, groups, text, self.puts)?;
        let before = self.pages.set(self.heap, path, page)?;
        self.aliases.remove(path);
        self.puts += 1;
        Ok(before)
    }

    /// Removes the page of a path with its aliases. `false` says that no page stands there, also
    /// where the path is an alias; then nothing changes. It takes no memory.
    pub fn remove(&mut self, path: &Path) -> bool
        ensures answer { result ≡ map.contains_key self.old.site.pages path.now }
        ensures state { self.new ≡ without_page self.old path.now }
    {
        if !self.pages.contains(path) {
            return false;
        }
        self.pages.take(path);
        self.aliases.remove_goal(path);
        true
    }

    /// Whether `move_page` refuses, but for `Memory`. It takes no memory.
    pub fn may_move(&self, from: &Path, to: &Path) -> Result<(), MoveError>
        ensures answer { result ≡ may_move self.now from.now to.now }
        ensures room { OnOk result (self.now.puts + 1 < 2 ^ 64) }
    {
        move_fits(
            self.pages.contains(from),
            self.pages.contains(to),
            self.aliases.len_after_move(to),
            self.puts,
        )
    }

    /// Takes the page of one path to another, with its groups, text and aliases, and gives it the
    /// next stamp. The old path becomes an alias of it, and the new one is an alias no more. Refused
    /// are, in this order, `NoPage`, `Taken`, `StoreFull` and `Memory`; a refused move changes
    /// nothing.
    pub fn move_page(&mut self, from: &Path, to: &Path) -> Result<(), MoveError>
        ensures { Gives MoveError.Memory
            (moved_in self.old from.now to.now) self.old self.new result }
    {
        self.may_move(from, to)?;
        move_page(
            self.heap,
            &mut self.pages,
            &mut self.aliases,
            from,
            to,
            self.puts,
        )?;
        self.puts += 1;
        Ok(())
    }

    /// The page that stands under a path, and not one that the path is an alias of.
    pub fn get(&self, path: &Path) -> Option<&Page>
        ensures page { option_map (λ page. page.now.page) result
            ≡ map.get self.now.site.pages path.now }
        ensures stamp { option_map (λ page. page.now.stamp) result
            ≡ map.get self.now.stamps path.now }
        ensures store { IsStore self.now }
    {
        self.pages.get(path)
    }

    /// The stamp that the next put or move takes, which no page has: how many were accepted so far. `None` where no
    /// stamp is left.
    #[tactic(auto, unfolding(crate::specs::Store::put_limit))]
    pub fn next_stamp(&self) -> Option<u64>
        ensures stamp { result ≡ stamp_after self.now.puts }
        ensures store { IsStore self.now }
    {
        if self.puts == u64::MAX {
            return None;
        }
        Some(self.puts)
    }

    /// Whether a page stands under a path, or the path is an alias. It takes no memory.
    pub fn has_name(&self, path: &Path) -> bool
        ensures { result ≡ is_name self.now.site path.now }
    {
        self.pages.contains(path) || self.aliases.contains(path)
    }

    /// The names of a page: its path, then its aliases in the order of their bytes. Where no page stands
    /// under the path there is none.
    pub fn names_of<'a>(&'a self, path: &Path) -> Result<Vec<&'a Path>, Memory>
        ensures { IfOk result (λ names. texts_of names.items ≡ names_of self.now.site path.now) }
    {
        let Some((path, _page)) = self.pages.entry(path) else {
            return Ok(Vec::new(self.heap));
        };
        self.aliases.names(self.heap, path)
    }

    /// The pages with their paths, in the order of these, as a walk over the whole site wants them. It takes no memory.
    pub fn pages(&self) -> Iter<'_, Path, Page>
        ensures { without_stamps result ≡ map.entries self.now.site.pages }
    {
        self.pages.iter()
    }

    /// How many pages the reader sees. It takes no memory, and a step for each set of groups that pages have.
    pub fn count_seen(&self, reader: &Reader) -> usize
        ensures { result ≡ length (view_of self.now.site (Some reader.now)).pages }
    {
        self.pages.count_seen(reader)
    }

    /// Of each page, in the order of the paths, whether the reader sees it. It takes a step for each set of groups that pages have, and
    /// reads of each page the number of its set.
    pub fn flags(&self, heap: Heap, reader: &Reader) -> Result<Vec<bool>, Memory>
        ensures { IfOk result (λ flags. flags.items
            ≡ mapped (λ page. may_see (Some reader.now) page.1) (map.entries self.now.site.pages)) }
    {
        self.pages.flags(heap, reader)
    }

    /// What the reader sees of the site.
    pub fn sight<'a>(&'a self, reader: &'a Reader) -> SiteSight<'a>
        ensures { result ≡ view_of self.now.site (Some reader.now) }
    {
        SiteSight::new(&self.pages, &self.aliases, reader)
    }
}

/// Whether a put of a text is refused, where so many pages stand, the path has one or not, and so
/// many puts and moves were accepted.
#[tactic(auto, unfolding(crate::specs::Store::text_limit, crate::specs::Store::page_limit, crate::specs::Store::put_limit))]
fn fits(pages: usize, stands: bool, puts: u64, text: &str) -> Result<(), EditError>
    ensures answer { result ≡ fits pages stands puts text.now }
    ensures room { OnOk result (puts + 1 < 2 ^ 64) }
{
    if text.len() > TEXT_LIMIT {
        return Err(EditError::TooLong);
    }
    if (!stands && pages >= PAGE_LIMIT) || puts == u64::MAX {
        return Err(EditError::StoreFull);
    }
    Ok(())
}

/// Whether a move is refused, where a page stands under the old path or not, and under the new one,
/// so many aliases would stand, and so many puts and moves were accepted.
#[tactic(auto, unfolding(crate::specs::Store::alias_limit, crate::specs::Store::put_limit))]
fn move_fits(stands: bool, taken: bool, aliases: usize, puts: u64) -> Result<(), MoveError>
    ensures answer { result ≡ move_fits stands taken aliases puts }
    ensures room { OnOk result (puts + 1 < 2 ^ 64) }
{
    if !stands {
        return Err(MoveError::NoPage);
    }
    if taken {
        return Err(MoveError::Taken);
    }
    if aliases > ALIAS_LIMIT || puts == u64::MAX {
        return Err(MoveError::StoreFull);
    }
    Ok(())
}
