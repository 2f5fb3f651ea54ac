//! Moves that keep the rows of a shelf's pages in step, where the shelf is for people.
//!
//! A move goes so: the new path joins the rows of the page, by its groups and by its links as they are from there, the page is moved, and
//! the old path leaves its rows. Where memory is refused, the new path leaves what it joined, which takes none.

ghost use Rattle.std.specs.Prelude.{◌≡◌, Ok, Some, IfOk, IfSome, is_some};
ghost use Rattle.std.specs.FinMap as map;
ghost use Rattle.doc_page_parts.specs.Refusals.{Gives};
ghost use Rattle.doc_page_parts.specs.declared.rendered.Rendered.{Rendered};
ghost use Rattle.doc_resolve.specs.Links.{kinds};
ghost use Rattle.doc_shelf.specs.Shelves.{InStep, IsMoving};
ghost use Rattle.doc_shelf_pages.specs.KeptPages.{IsFree};
ghost use Rattle.doc_shelf_pages.specs.Shelves.{IsEdited, IsKept};
ghost use Rattle.doc_shelf_pages.specs.Views.{Renders};
ghost use Rattle.doc_store.specs.Store.{IsStore, may_move, moved_in};

use crate::page_change::PageChange;
use crate::people_rows::PeopleRows;
use doc_page_parts::failure::Memory;
use doc_page_parts::heap::{Heap, Vec};
use doc_page_parts::list::List;
use doc_page_parts::path::Path;
use doc_resolve::{LinkKind, kinds};
use doc_rows_links::targets::Targets;
use doc_shelf_pages::KeptPages;
use doc_shelf_pages::edits::move_page;
use doc_store::groups::Groups;
use doc_store::moving::MoveError;
use doc_store::store::Store;

/// A page that is to be moved: its groups, what its links lead to from where it stands, and what changes where it goes.
#[derive(Drop)]
pub struct MovingPage {
    pub groups: Groups,
    pub links: List<LinkKind>,
    pub change: PageChange,
}

/// `move_page` with the rows.
pub(crate) fn move_in_step(
    heap: Heap,
    store: &mut Store,
    kept: &mut KeptPages,
    rows: &mut PeopleRows,
    from: &Path,
    to: &Path,
    stamp: u64,
) -> Result<(), MoveError>
    requires may { may_move store.old from.now to.now ≡ Ok tt }
    requires next { stamp ≡ store.old.puts }
    requires free { IsFree kept.old to.now stamp }
    ensures store { Gives MoveError.Memory
        (moved_in store.old from.now to.now) store.old store.new result }
    ensures kept { (render : Renders) → IsStore store.old → IsKept render store.old kept.old
        → IsEdited render store.old store.new kept.new }
    ensures texts { kept.new.with_texts ≡ kept.old.with_texts }
    ensures rows { (render : Renders) → IsStore store.old → IsKept render store.old kept.old
        → InStep render kept.old.with_texts store.old.site.pages rows.old
        → InStep render kept.old.with_texts store.new.site.pages rows.new }
{
    if !kept.keeps_texts() {
        return move_page(store, kept, from, to, stamp);
    }
    let Some(page) = moving_page(heap, store, kept, from, to)? else {
        return Err(MoveError::NoPage);
    };
    rows.widen(heap, to, &page.change, &page.groups)?;
    let moved = move_page(store, kept, from, to, stamp);
    if moved.is_ok() {
        rows.narrow(to, &page.change, &page.groups);
        rows.lift(from, &page.groups, page.links.get());
        return moved;
    }
    rows.narrow_back(to, &page.change, &page.groups);
    moved
}

/// What is known of the page at a path, where one stands there, that is to be moved to another.
fn moving_page(
    heap: Heap,
    store: &Store,
    kept: &KeptPages,
    from: &Path,
    to: &Path,
) -> Result<Option<MovingPage>, Memory>
    ensures stood { IfOk result (λ page.
        is_some page ≡ map.contains_key store.now.site.pages from.now) }
    ensures known { IfOk result (λ page. IfSome page (λ page. (render : Renders)
        → IsKept render store.now kept.now
        → IsMoving render store.now.site.pages from.now to.now page)) }
{
    let Some(page) = store.get(from) else {
        return Ok(None);
    };
    let stamp = page.stamp();
    let links = links_from(heap, kept, from, stamp, from)?;
    let new = links_from(heap, kept, from, stamp, to)?;
    let writes = Targets::of(heap, new.get())?;
    Ok(Some(MovingPage {
        groups: page.groups().copy(heap)?,
        links,
        change: PageChange::to_none(heap, writes),
    }))
}

/// What the links of the page lead to that is kept under a path and a stamp, as it stood at a place.
fn links_from(
    heap: Heap,
    kept: &KeptPages,
    path: &Path,
    stamp: u64,
    place: &Path,
) -> Result<List<LinkKind>, Memory>
    ensures { IfOk result (λ links. (page : Rendered)
        → map.get kept.now.renderings (path.now, stamp) ≡ Some page
        → links ≡ kinds place.now page.pieces) }
{
    let Some(page) = kept.get(path, stamp) else {
        return Ok(List::new(Vec::new(heap)));
    };
    let pieces = page.pieces(heap)?;
    Ok(List::new(kinds(heap, place, pieces.get())?))
}
