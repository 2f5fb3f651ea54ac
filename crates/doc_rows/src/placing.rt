//! Pages in rows: a path stands in the row of all pages and in one for each group of its page.

ghost use Rattle.std.specs.Prelude.{◌≡◌, ◌⊎◌, [], ◌∷◌, Some, IfOk, OnOk, OnErr, option_copied};
ghost use Rattle.std.specs.FinMap as map;
ghost use Rattle.doc_store_readers.specs.Groups.{texts_of};
ghost use Rattle.doc_store_readers.specs.Maps.{TextMap};
ghost use Rattle.doc_store_readers.specs.Pages.{Page};
ghost use Rattle.doc_rows.specs.Rows.{HasLess, HasMore, IsRows, IsWider, groups_at, is_among, rows_beside, rows_of, rows_of_some};

use crate::rows::Rows;
use doc_page_parts::failure::Memory;
use doc_page_parts::heap::{Heap, Vec};
use doc_page_parts::path::Path;
use doc_page_parts::text::Text;
use doc_store_readers::groups::Groups;

impl Rows {
    /// Before a page with these groups is set at a path, where one with the groups `before` stands, or none: the path stands in the rows
    /// of both. Rows that stay aren't touched; after a refusal all rows are as they were.
    pub fn widen(
        &mut self,
        heap: Heap,
        path: &Path,
        before: Option<&Groups>,
        groups: &Groups,
    ) -> Result<(), Memory>
        ensures ok { OnOk result
            ((pages : TextMap Page) → groups_at pages path.now ≡ option_copied before.entry
            → IsRows pages self.old
            → IsWider pages path.now (option_copied before.entry) groups.now self.new) }
        ensures err { OnErr result
            ((pages : TextMap Page) → groups_at pages path.now ≡ option_copied before.entry
            → IsRows pages self.old → IsRows pages self.new) }
    {
        self.add_beside(heap, path, groups, before)
    }

    /// After the page is set: the path leaves the rows of the old groups that the new page hasn't. It takes no memory.
    pub fn narrow(&mut self, path: &Path, before: Option<&Groups>, groups: &Groups)
        ensures { (pages : TextMap Page) (page : Page) → page.groups ≡ groups.now
            → IsWider pages path.now (option_copied before.entry) groups.now self.old
            → IsRows (map.insert pages path.now page) self.new }
    {
        self.leave_beside(path, before, Some(groups));
    }

    /// After the page was refused: the path leaves the rows of its groups that the old page hasn't. It takes no memory.
    pub fn narrow_back(&mut self, path: &Path, before: Option<&Groups>, groups: &Groups)
        ensures { (pages : TextMap Page)
            → IsWider pages path.now (option_copied before.entry) groups.now self.old
            → IsRows pages self.new }
    {
        self.leave_beside(path, Some(groups), before);
    }

    /// The page at a path, which had these groups, goes. It takes no memory.
    pub fn lift(&mut self, path: &Path, groups: &Groups)
        ensures { (pages : TextMap Page) → groups_at pages path.now ≡ Some groups.now
            → IsRows pages self.old → IsRows (map.remove pages path.now) self.new }
    {
        self.leave_beside(path, Some(groups), None);
    }

    /// Adds a path to the rows that a page with some groups has, and one with the others, if any, hasn't. After a refusal
    /// it stands in none of them, or all rows are as they were.
    pub fn add_beside(
        &mut self,
        heap: Heap,
        path: &Path,
        groups: &Groups,
        others: Option<&Groups>,
    ) -> Result<(), Memory>
        ensures ok { OnOk result (HasMore self.old path.now
            (rows_beside (rows_of groups.now) (rows_of_some
            (option_copied others.entry))) self.new) }
        ensures err { OnErr result ((self.new ≡ self.old) ⊎ HasLess self.old path.now
            (rows_beside (rows_of groups.now) (rows_of_some
            (option_copied others.entry))) self.new) }
    {
        let old_rows = rows_of(heap, others)?;
        let new_rows = rows_of(heap, Some(groups))?;
        let added = rows_beside(heap, new_rows.as_slice(), old_rows.as_slice())?;
        self.add_to_each(heap, added.as_slice(), path)
    }

    /// Takes a path out of the rows that a page with some groups has, if there is one, and one with the others, if any, hasn't. It takes
    /// no memory.
    pub fn leave_beside(&mut self, path: &Path, groups: Option<&Groups>, others: Option<&Groups>)
        ensures { HasLess self.old path.now (rows_beside (rows_of_some (option_copied groups.entry))
            (rows_of_some (option_copied others.entry))) self.new }
    {
        let Some(groups) = groups else {
            return;
        };
        let Some(others) = others else {
            self.leave_all(path, groups.names());
            return;
        };
        self.leave(path, groups.names(), others.names());
    }

    /// Takes a path out of the rows of a page with these groups.
    fn leave_all(&mut self, path: &Path, names: &[Text])
        ensures { HasLess self.old path.now (rows_of names.now) self.new }
    {
        self.remove("*", path);
        self.remove_from_groups(names, path);
    }

    /// Takes a path out of the rows of a page with these groups, but for those of a page with the others.
    fn leave(&mut self, path: &Path, names: &[Text], others: &[Text])
        ensures { HasLess self.old path.now
            (rows_beside (rows_of names.now) (rows_of others.now)) self.new }
    {
        for name in names {
            self.leave_unless(path, name.get(), others);
        }
    }

    /// Takes a path out of a row, unless it is one of a page with these groups.
    fn leave_unless(&mut self, path: &Path, row: &str, names: &[Text])
        ensures { HasLess self.old path.now
            (rows_beside (row.now ∷ []) (rows_of names.now)) self.new }
    {
        if is_row_of(row, names) {
            return;
        }
        self.remove(row, path);
    }

    /// Adds a path to some rows. After a refusal it stands in none of them.
    fn add_to_each(&mut self, heap: Heap, rows: &[&str], path: &Path) -> Result<(), Memory>
        ensures ok { OnOk result (HasMore self.old path.now (texts_of rows.now) self.new) }
        ensures err { OnErr result (HasLess self.old path.now (texts_of rows.now) self.new) }
    {
        for row in rows {
            if let Err(refusal) = self.add(heap, row, path) {
                self.remove_from_each(rows, path);
                return Err(refusal);
            }
        }
        Ok(())
    }

    /// Takes a path out of some rows.
    fn remove_from_each(&mut self, rows: &[&str], path: &Path)
        ensures { HasLess self.old path.now (texts_of rows.now) self.new }
    {
        for row in rows {
            self.remove(row, path);
        }
    }

    /// The same of the rows of some groups.
    fn remove_from_groups(&mut self, names: &[Text], path: &Path)
        ensures { HasLess self.old path.now names.now self.new }
    {
        for name in names {
            self.remove(name.get(), path);
        }
    }
}

/// The rows of a page with these groups, where one stands.
fn rows_of<'a>(heap: Heap, groups: Option<&'a Groups>) -> Result<Vec<&'a str>, Memory>
    ensures { IfOk result (λ rows. texts_of rows.items
        ≡ rows_of_some (option_copied groups.entry)) }
{
    match groups {
        Some(groups) => rows_of_groups(heap, groups.names()),
        None => Ok(Vec::new(heap)),
    }
}

/// The row of all pages, and one for each group.
fn rows_of_groups<'a>(heap: Heap, names: &'a [Text]) -> Result<Vec<&'a str>, Memory>
    ensures { IfOk result (λ rows. texts_of rows.items ≡ rows_of names.now) }
{
    let mut rows = Vec::with_capacity(heap, names.len() + 1)?;
    rows.push("*")?;
    for name in names {
        rows.push(name.get())?;
    }
    Ok(rows)
}

/// Those of some rows that are none of the others.
fn rows_beside<'a>(heap: Heap, rows: &[&'a str], others: &[&str]) -> Result<Vec<&'a str>, Memory>
    ensures { IfOk result
        (λ left. texts_of left.items ≡ rows_beside (texts_of rows.now) (texts_of others.now)) }
{
    let mut left = Vec::with_capacity(heap, rows.len())?;
    for row in rows {
        if !is_among(row, others) {
            left.push(*row)?;
        }
    }
    Ok(left)
}

fn is_among(row: &str, rows: &[&str]) -> bool
    ensures { result ≡ is_among row.now (texts_of rows.now) }
{
    for other in rows {
        if *other == row {
            return true;
        }
    }
    false
}

/// Whether a page with these groups has a row.
fn is_row_of(row: &str, names: &[Text]) -> bool
    ensures { result ≡ is_among row.now (rows_of names.now) }
{
    if "*" == row {
        return true;
    }
    for name in names {
        if name.get() == row {
            return true;
        }
    }
    false
}
