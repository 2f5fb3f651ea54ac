//! For each path that links write the rows of the pages that write it.

ghost use Rattle.std.specs.Prelude.{◌≡◌, ◌⊎◌, [], ◌∷◌, true, Some, None, OnOk, OnErr, option_copied, string_bytes};
ghost use Rattle.std.specs.FinMap as map;
ghost use Rattle.doc_rows.specs.Looks.{first_from};
ghost use Rattle.doc_rows.specs.Rows.{groups_at, rows_beside, rows_of, rows_of_some};
ghost use Rattle.doc_rows_links.specs.LinkRows.{AreTargets, AreTargetsAt, IsLinkRows, IsWiderByLinks, Linking, groups_if, paths_writing};
ghost use Rattle.doc_rows_links.specs.LinkRows.{rows_at};
ghost use Rattle.doc_rows_links.specs.LinkSteps.{AllHaveLess, AllHaveMore, added, dropped, lifted, only_at};
ghost use Rattle.doc_store_readers.specs.Maps.{TextMap};
ghost use Rattle.doc_store_readers.specs.Pages.{Page};
ghost use Rattle.doc_store_readers.specs.Sites.{Site, view_of};

use crate::targets::Targets;
use doc_page_parts::failure::Memory;
use doc_page_parts::heap::{BTreeMap, Heap, String};
use doc_page_parts::path::Path;
use doc_resolve::LinkKind;
use doc_rows::rows::Rows;
use doc_store_readers::groups::Groups;
use doc_store_readers::reader::Reader;
use std::marker::Model;

/// The rows of the pages by what their links write. Rows that are empty aren't kept. Contracts see the map of the rows.
#[derive(Drop)]
pub struct LinkRows {
    rows: BTreeMap<String, Rows>,
}

impl Model for LinkRows {
    ghost use Rattle.std.specs.Coded.{coded_ℕ, coded_list};
    ghost use Rattle.std.specs.FinMap as map;
    ghost use Rattle.std.specs.FinSet as set;
    ghost use Rattle.doc_index_tables.specs.Maps.{text_map};
    ghost use Rattle.doc_rows_links.specs.LinkRows.{LinkRowMap};

    ghost Value = { LinkRowMap };

    ghost coded = { map.code (coded_list coded_ℕ) (map.code (coded_list coded_ℕ) (set.code (coded_list coded_ℕ))) };

    ghost view = { λ r. text_map r.rows };
}

/// A page that is set at a path, and the one that stands there, if any: the groups of each, and the paths that their links write.
#[derive(Clone, Copy)]
pub struct Change<'a> {
    pub before: Option<&'a Groups>,
    pub old: &'a Targets,
    pub groups: &'a Groups,
    pub new: &'a Targets,
}

impl LinkRows {
    /// No rows. It takes no memory.
    pub fn new(heap: Heap) -> LinkRows
        ensures { result ≡ map.empty }
    {
        LinkRows {
            rows: BTreeMap::new(heap),
        }
    }

    /// The first page that a reader sees, that writes a path, and that doesn't come before a text: one look into each row of theirs.
    pub fn first_seen(&self, target: &str, reader: &Reader, from: &String) -> Option<&str>
        ensures { (linking : Linking) (site : Site) → IsLinkRows linking site.pages self.now
            → option_copied result ≡ first_from (string_bytes from.now)
            (paths_writing linking (view_of site (Some reader.now)) target.now) }
    {
        self.rows.get(target)?.first_seen(reader, from)
    }

    /// Before a page is set at a path. Rows that stay aren't touched; after a refusal all rows are as they were.
    pub fn widen(&mut self, heap: Heap, path: &Path, change: Change) -> Result<(), Memory>
        ensures ok { OnOk result ((linking : Linking) (pages : TextMap Page)
            → groups_at pages path.now ≡ option_copied change.entry.before
            → AreTargetsAt linking pages path.now change.entry.old.now
            → IsLinkRows linking pages self.old
            → IsWiderByLinks linking pages path.now
            (option_copied change.entry.before) change.entry.old.now
            change.entry.groups.now change.entry.new.now self.new) }
        ensures err { OnErr result ((linking : Linking) (pages : TextMap Page)
            → groups_at pages path.now ≡ option_copied change.entry.before
            → AreTargetsAt linking pages path.now change.entry.old.now
            → IsLinkRows linking pages self.old → IsLinkRows linking pages self.new) }
    {
        self.add_new(heap, path, change)
    }

    /// After the page is set: the path leaves the rows that the old page alone had. It takes no memory.
    pub fn narrow(&mut self, path: &Path, change: Change)
        ensures { (linking : Linking) (pages : TextMap Page) (page : Page)
            → page.groups ≡ change.entry.groups.now
            → AreTargets (linking path.now page) change.entry.new.now
            → IsWiderByLinks linking pages path.now
            (option_copied change.entry.before) change.entry.old.now
            change.entry.groups.now change.entry.new.now self.old
            → IsLinkRows linking (map.insert pages path.now page) self.new }
    {
        self.leave_old(path, change);
    }

    /// After the page was refused: the path leaves the rows that the new page alone has. It takes no memory.
    pub fn narrow_back(&mut self, path: &Path, change: Change)
        ensures { (linking : Linking) (pages : TextMap Page)
            → IsWiderByLinks linking pages path.now
            (option_copied change.entry.before) change.entry.old.now
            change.entry.groups.now change.entry.new.now self.old
            → IsLinkRows linking pages self.new }
    {
        self.leave_new(path, change);
    }

    /// The page at a path, which had these groups and links, goes. It takes no memory.
    pub fn lift(&mut self, path: &Path, groups: &Groups, links: &[LinkKind])
        ensures { (linking : Linking) (pages : TextMap Page) (page : Page)
            → map.get pages path.now ≡ Some page → page.groups ≡ groups.now
            → linking path.now page ≡ links.now
            → IsLinkRows linking pages self.old
            → IsLinkRows linking (map.remove pages path.now) self.new }
    {
        for link in links {
            self.leave_link(path, groups, link);
        }
    }

    /// Adds a path to the rows of what the new page writes. After a refusal it stands in none of those that the old page hadn't.
    fn add_new(&mut self, heap: Heap, path: &Path, change: Change) -> Result<(), Memory>
        ensures ok { OnOk result (AllHaveMore self.old path.now
            (added (option_copied change.entry.before)
            change.entry.old.now change.entry.groups.now change.entry.new.now) self.new) }
        ensures err { OnErr result (AllHaveLess self.old path.now
            (added (option_copied change.entry.before)
            change.entry.old.now change.entry.groups.now change.entry.new.now) self.new) }
    {
        for target in change.new.iter() {
            let target = target.as_str();
            let before = groups_if(change.before, change.old, target);
            if let Err(refusal) = self.add_at(heap, target, path, change.groups, before) {
                self.leave_new(path, change);
                return Err(refusal);
            }
        }
        Ok(())
    }

    /// Takes a path out of the rows of what the new page writes, but for those that the old page had.
    fn leave_new(&mut self, path: &Path, change: Change)
        ensures { AllHaveLess self.old path.now (added (option_copied change.entry.before)
            change.entry.old.now change.entry.groups.now change.entry.new.now) self.new }
    {
        for target in change.new.iter() {
            let target = target.as_str();
            let before = groups_if(change.before, change.old, target);
            self.leave_at(target, path, Some(change.groups), before);
        }
    }

    /// Takes a path out of the rows of what the old page wrote, but for those that the new page has.
    fn leave_old(&mut self, path: &Path, change: Change)
        ensures { AllHaveLess self.old path.now (dropped (option_copied change.entry.before)
            change.entry.old.now change.entry.groups.now change.entry.new.now) self.new }
    {
        for target in change.old.iter() {
            let target = target.as_str();
            let groups = groups_if(Some(change.groups), change.new, target);
            self.leave_at(target, path, change.before, groups);
        }
    }

    /// Takes the path of a page with these groups out of the rows of what a link writes.
    fn leave_link(&mut self, path: &Path, groups: &Groups, link: &LinkKind)
        ensures { AllHaveLess self.old path.now (lifted groups.now (link.now ∷ [])) self.new }
    {
        let LinkKind::Page {
            path: target,
            anchor: _,
        } = link
        else {
            return;
        };
        self.leave_at(target.text(), path, Some(groups), None);
    }

    /// Adds a path to the rows of a target that a page with some groups has, and one with the others, if any, hasn't. After a refusal
    /// it stands in none of them, or all rows are as they were.
    fn add_at(
        &mut self,
        heap: Heap,
        target: &str,
        path: &Path,
        groups: &Groups,
        others: Option<&Groups>,
    ) -> Result<(), Memory>
        ensures ok { OnOk result (AllHaveMore self.old path.now (only_at target.now
            (rows_beside (rows_of groups.now) (rows_of_some
            (option_copied others.entry)))) self.new) }
        ensures err { OnErr result ((self.new ≡ self.old)
            ⊎ AllHaveLess self.old path.now (only_at target.now
            (rows_beside (rows_of groups.now) (rows_of_some
            (option_copied others.entry)))) self.new) }
    {
        let Some(rows) = self.rows.get_mut(target) else {
            return self.add_first(heap, target, path, groups, others);
        };
        rows.add_beside(heap, path, groups, others)
    }

    /// Adds the first rows of a target.
    fn add_first(
        &mut self,
        heap: Heap,
        target: &str,
        path: &Path,
        groups: &Groups,
        others: Option<&Groups>,
    ) -> Result<(), Memory>
        requires { map.get self.old target.now ≡ None }
        ensures ok { OnOk result (AllHaveMore self.old path.now (only_at target.now
            (rows_beside (rows_of groups.now) (rows_of_some
            (option_copied others.entry)))) self.new) }
        ensures err { OnErr result (self.new ≡ self.old) }
    {
        let mut rows = Rows::new(heap);
        rows.add_beside(heap, path, groups, others)?;
        self.insert(String::from_str(heap, target)?, rows)
    }

    fn insert(&mut self, target: String, rows: Rows) -> Result<(), Memory>
        ensures ok { OnOk result (self.new ≡ map.insert self.old (string_bytes target) rows) }
        ensures err { OnErr result (self.new ≡ self.old) }
    {
        self.rows.insert(target, rows)?;
        Ok(())
    }

    /// Takes a path out of the rows of a target that a page with some groups has, if there is one, and one with the others, if any,
    /// hasn't; and the rows once they are empty.
    fn leave_at(
        &mut self,
        target: &str,
        path: &Path,
        groups: Option<&Groups>,
        others: Option<&Groups>,
    )
        ensures { AllHaveLess self.old path.now (only_at target.now
            (rows_beside (rows_of_some (option_copied groups.entry)) (rows_of_some
            (option_copied others.entry))))
            self.new }
    {
        if self.leave_in(target, path, groups, others) {
            self.remove_rows(target);
        }
    }

    /// Takes a path out of rows of a target, and tells whether none are left.
    fn leave_in(
        &mut self,
        target: &str,
        path: &Path,
        groups: Option<&Groups>,
        others: Option<&Groups>,
    ) -> bool
        ensures less { AllHaveLess self.old path.now (only_at target.now
            (rows_beside (rows_of_some (option_copied groups.entry)) (rows_of_some
            (option_copied others.entry))))
            self.new }
        ensures none { result ≡ true → rows_at self.new target.now ≡ map.empty }
    {
        let Some(rows) = self.rows.get_mut(target) else {
            return false;
        };
        rows.leave_beside(path, groups, others);
        rows.is_empty()
    }

    fn remove_rows(&mut self, target: &str)
        ensures { self.new ≡ map.remove self.old target.now }
    {
        self.rows.remove(target);
    }
}

/// These groups, where a path is among some targets.
fn groups_if<'a>(groups: Option<&'a Groups>, targets: &Targets, path: &str) -> Option<&'a Groups>
    ensures { option_copied result
        ≡ groups_if (map.contains_key targets.now path.now) (option_copied groups.entry) }
{
    if !targets.contains(path) {
        return None;
    }
    groups
}
