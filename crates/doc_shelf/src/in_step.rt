//! Puts and removals that keep the rows of a shelf's pages in step, where the shelf is for people.
//!
//! A put goes so: the path joins the rows of the new page, by group and by link, the page is put, and the path leaves those rows that the
//! old page alone had. Where memory is refused, it leaves what it joined, which takes none.

ghost use Rattle.std.specs.Prelude.{◌≡◌, true, Ok, IfOk, OnErr, OnOk, is_some};
ghost use Rattle.std.specs.FinMap as map;
ghost use Rattle.doc_shelf.specs.Shelves.{ArePeopleRows, InStep, IsBeingSet};
ghost use Rattle.doc_shelf_pages.specs.Shelves.{IsBeingPut, IsEdited, IsKept};
ghost use Rattle.doc_shelf_pages.specs.Views.{Renders};
ghost use Rattle.doc_shelf_views.specs.Linking.{linking};
ghost use Rattle.doc_store.specs.Store.{IsStore, fits_in, with_page, without_page};

use crate::page_change::PageChange;
use crate::people_rows::PeopleRows;
use doc_page_parts::bytes::Bytes;
use doc_page_parts::failure::Memory;
use doc_page_parts::heap::Heap;
use doc_page_parts::path::Path;
use doc_rows_links::targets::Targets;
use doc_shelf_pages::KeptPages;
use doc_shelf_pages::edits::{NewPage, end_put, remove};
use doc_store::store::Store;

/// `end_put` with the rows.
pub(crate) fn end_put_in_step(
    heap: Heap,
    store: &mut Store,
    kept: &mut KeptPages,
    rows: &mut PeopleRows,
    path: &Path,
    page: NewPage,
) -> Result<Option<u64>, Memory>
    requires fits { fits_in store.old path.now page.text.now ≡ Ok tt }
    requires next { page.stamp ≡ store.old.puts }
    ensures put { OnOk result (store.new ≡ with_page store.old path.now
        (record { groups = page.entry.groups.now; text = page.entry.text.now })) }
    ensures stood { IfOk result (λ before. is_some before
        ≡ map.contains_key store.old.site.pages path.now) }
    ensures refused { OnErr result (store.new ≡ store.old) }
    ensures kept { (render : Renders) → IsStore store.old
        → IsBeingPut render store.old path.now page.entry.text.now kept.old
        → IsEdited render store.old store.new kept.new }
    ensures texts { kept.new.with_texts ≡ kept.old.with_texts }
    ensures rows { (render : Renders) → IsStore store.old
        → IsBeingPut render store.old path.now page.entry.text.now kept.old
        → InStep render kept.old.with_texts store.old.site.pages rows.old
        → InStep render kept.old.with_texts store.new.site.pages rows.new }
{
    let Ok(change) = widen(heap, store, kept, rows, path, page) else {
        kept.drop_page(path, page.stamp);
        return Err(Memory);
    };
    let Ok(stood) = end_put(store, kept, path, page) else {
        rows.narrow_back(path, &change, page.groups);
        return Err(Memory);
    };
    rows.narrow(path, &change, page.groups);
    Ok(stood)
}

/// `end_put_saying` with the rows.
pub(crate) fn end_put_saying_in_step(
    heap: Heap,
    store: &mut Store,
    kept: &mut KeptPages,
    rows: &mut PeopleRows,
    path: &Path,
    page: NewPage,
    said: Result<Bytes, Memory>,
) -> Result<Bytes, Memory>
    requires fits { fits_in store.old path.now page.text.now ≡ Ok tt }
    requires next { page.stamp ≡ store.old.puts }
    ensures reply { IfOk result (λ bytes. said ≡ Ok bytes) }
    ensures put { OnOk result (store.new ≡ with_page store.old path.now
        (record { groups = page.entry.groups.now; text = page.entry.text.now })) }
    ensures refused { OnErr result (store.new ≡ store.old) }
    ensures kept { (render : Renders) → IsStore store.old
        → IsBeingPut render store.old path.now page.entry.text.now kept.old
        → IsEdited render store.old store.new kept.new }
    ensures texts { kept.new.with_texts ≡ kept.old.with_texts }
    ensures rows { (render : Renders) → IsStore store.old
        → IsBeingPut render store.old path.now page.entry.text.now kept.old
        → InStep render kept.old.with_texts store.old.site.pages rows.old
        → InStep render kept.old.with_texts store.new.site.pages rows.new }
{
    if said.is_err() {
        kept.drop_page(path, page.stamp);
        return said;
    }
    match end_put_in_step(heap, store, kept, rows, path, page) {
        Ok(_) => said,
        Err(_) => Err(Memory),
    }
}

/// `remove` with the rows. Of a shelf that isn't for people these are empty.
pub(crate) fn remove_in_step(
    store: &mut Store,
    kept: &mut KeptPages,
    rows: &mut PeopleRows,
    path: &Path,
) -> bool
    ensures answer { result ≡ map.contains_key store.old.site.pages path.now }
    ensures store { store.new ≡ without_page store.old path.now }
    ensures kept { (render : Renders) → IsStore store.old → IsKept render store.old kept.old
        → IsEdited render store.old store.new kept.new }
    ensures texts { kept.new.with_texts ≡ kept.old.with_texts }
    ensures rows { (render : Renders) → IsStore store.old → IsKept render store.old kept.old
        → InStep render kept.old.with_texts store.old.site.pages rows.old
        → InStep render kept.old.with_texts store.new.site.pages rows.new }
{
    lift_page(store, kept, rows, path);
    remove(store, kept, path)
}

/// Before a page is put at a path: a shelf for people widens its rows. It answers what they are narrowed by.
fn widen(
    heap: Heap,
    store: &Store,
    kept: &KeptPages,
    rows: &mut PeopleRows,
    path: &Path,
    page: NewPage,
) -> Result<PageChange, Memory>
    requires next { page.stamp ≡ store.now.puts }
    ensures ok { IfOk result (λ change. (render : Renders) → IsStore store.now
        → IsBeingPut render store.now path.now page.entry.text.now kept.now
        → kept.now.with_texts ≡ true → ArePeopleRows (linking render) store.now.site.pages rows.old
        → IsBeingSet render store.now path.now
        (record { groups = page.entry.groups.now; text = page.entry.text.now }) change rows.new) }
    ensures err { OnErr result ((render : Renders) → IsStore store.now
        → IsBeingPut render store.now path.now page.entry.text.now kept.now
        → kept.now.with_texts ≡ true → ArePeopleRows (linking render) store.now.site.pages rows.old
        → ArePeopleRows (linking render) store.now.site.pages rows.new) }
{
    if !kept.keeps_texts() {
        return Ok(PageChange::to_none(heap, Targets::none(heap)));
    }
    let change = PageChange::of_put(heap, store, kept, path, page.stamp)?;
    rows.widen(heap, path, &change, page.groups)?;
    Ok(change)
}

/// Before the page of a path is removed, where one stands: the path leaves its rows.
fn lift_page(store: &Store, kept: &KeptPages, rows: &mut PeopleRows, path: &Path)
    ensures { (render : Renders) → IsKept render store.now kept.now
        → ArePeopleRows (linking render) store.now.site.pages rows.old
        → ArePeopleRows (linking render) (without_page store.now path.now).site.pages rows.new }
{
    let Some(page) = store.get(path) else {
        return;
    };
    let Some(links) = kept.links().links_of(path, page.stamp()) else {
        return;
    };
    rows.lift(path, page.groups(), links);
}
