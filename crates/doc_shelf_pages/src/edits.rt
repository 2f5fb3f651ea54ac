//! Edits of a store, with what is kept of its pages.
//!
//! A put goes so: the text is rendered, what is kept of the page is added under the next stamp, the page is put, and what was kept under
//! the stamp that the path had is let go. A move carries what is kept over instead, and renders nothing. Where memory is refused, what was
//! added is let go, which takes none.

ghost use Rattle.std.specs.Prelude.{◌≡◌, ◌+◌, Ok, Err, IfErr, IfOk, IfSome, OnOk, OnErr, is_some, if◌then◌else◌};
ghost use Rattle.std.specs.FinMap as map;
ghost use Rattle.doc_page_parts.specs.Refusals.{Gives};
ghost use Rattle.doc_shelf_pages.specs.Shelves.{IsBeingPut, IsEdited, IsKept, let_go};
ghost use Rattle.doc_shelf_pages.specs.KeptPages.{IsFree, with_page as kept_with_page};
ghost use Rattle.doc_shelf_pages.specs.Views.{Renders};
ghost use Rattle.doc_store.specs.Store.{IsStore, fits_in, may_move, moved_in, stamp_after, with_page, without_page};

use crate::KeptPages;
use doc_page::renderer::Renderer;
use doc_page_parts::bytes::Bytes;
use doc_page_parts::failure::Memory;
use doc_page_parts::heap::Heap;
use doc_page_parts::path::Path;
use doc_store::groups::Groups;
use doc_store::moving::MoveError;
use doc_store::store::{EditError, Put, Store};

/// The stamp that a put of a text takes that fits.
pub fn stamp_of_put(store: &Store, path: &Path, text: &str) -> Result<u64, EditError>
    ensures fits { OnOk result (fits_in store.now path.now text.now ≡ Ok tt) }
    ensures next { IfOk result (λ stamp. stamp ≡ store.now.puts) }
    ensures refused { IfErr result (λ e. fits_in store.now path.now text.now ≡ Err e) }
{
    store.fits(path, text)?;
    let Some(stamp) = store.next_stamp() else {
        return Err(EditError::StoreFull);
    };
    Ok(stamp)
}

/// The stamp that the next put takes, where one is left.
pub fn next_stamp(store: &Store) -> Option<u64>
    ensures next { IfSome result (λ stamp. stamp ≡ store.now.puts) }
    ensures left { result ≡ stamp_after store.now.puts }
{
    store.next_stamp()
}

/// The stamp that a move takes for which memory alone may be refused.
pub fn stamp_of_move(store: &Store, from: &Path, to: &Path) -> Result<u64, MoveError>
    ensures may { OnOk result (may_move store.now from.now to.now ≡ Ok tt) }
    ensures next { IfOk result (λ stamp. stamp ≡ store.now.puts) }
    ensures refused { IfErr result (λ e. may_move store.now from.now to.now ≡ Err e) }
{
    store.may_move(from, to)?;
    let Some(stamp) = store.next_stamp() else {
        return Err(MoveError::StoreFull);
    };
    Ok(stamp)
}

/// Renders a text, and keeps what it makes under a path and a stamp, under which nothing is kept.
pub fn begin_put<R: Renderer>(
    heap: Heap,
    renderer: &mut R,
    kept: &mut KeptPages,
    path: &Path,
    stamp: u64,
    text: &str,
) -> Result<(), Memory>
    requires free { IsFree kept.old path.now stamp }
    ensures ok { OnOk result
        (kept.new ≡ kept_with_page kept.old path.now stamp (R.page renderer.old text.now)) }
    ensures err { OnErr result (kept.new ≡ kept.old) }
    ensures same { R.page renderer.new ≡ R.page renderer.old }
    ensures counted { R.count renderer.new ≡ R.count renderer.old + 1 }
{
    let page = renderer.render(heap, text)?;
    kept.add(path, stamp, page)
}

/// A page to be put, under the stamp that it gets.
#[derive(Clone, Copy)]
pub struct NewPage<'a> {
    pub groups: &'a Groups,
    pub text: &'a str,
    pub stamp: u64,
}

/// Puts a page that fits, of which is kept already what its text makes. It answers the stamp of the page that stood there.
pub fn end_put(
    store: &mut Store,
    kept: &mut KeptPages,
    path: &Path,
    page: NewPage,
) -> Result<Option<u64>, Memory>
    requires fits { fits_in store.old path.now page.text.now ≡ Ok tt }
    requires next { page.stamp ≡ store.old.puts }
    ensures put { OnOk result (store.new ≡ with_page store.old path.now
        (record { groups = page.entry.groups.now; text = page.entry.text.now })) }
    ensures stood { IfOk result (λ before. is_some before
        ≡ map.contains_key store.old.site.pages path.now) }
    ensures refused { OnErr result (store.new ≡ store.old) }
    ensures kept { (render : Renders) → IsStore store.old
        → IsBeingPut render store.old path.now page.entry.text.now kept.old
        → IsEdited render store.old store.new kept.new }
    ensures texts { kept.new.with_texts ≡ kept.old.with_texts }
{
    let put = store.put_fitting(path, page.groups, page.text);
    let over = match put {
        Ok(before) => before,
        Err(_) => Some(page.stamp),
    };
    let_go(kept, path, over);
    put
}

/// The same after the bytes of a reply were written, or found no memory.
pub fn end_put_saying(
    store: &mut Store,
    kept: &mut KeptPages,
    path: &Path,
    page: NewPage,
    said: Result<Bytes, Memory>,
) -> Result<Bytes, Memory>
    requires fits { fits_in store.old path.now page.text.now ≡ Ok tt }
    requires next { page.stamp ≡ store.old.puts }
    ensures reply { IfOk result (λ bytes. said ≡ Ok bytes) }
    ensures put { OnOk result (store.new ≡ with_page store.old path.now
        (record { groups = page.entry.groups.now; text = page.entry.text.now })) }
    ensures refused { OnErr result (store.new ≡ store.old) }
    ensures kept { (render : Renders) → IsStore store.old
        → IsBeingPut render store.old path.now page.entry.text.now kept.old
        → IsEdited render store.old store.new kept.new }
    ensures texts { kept.new.with_texts ≡ kept.old.with_texts }
{
    if said.is_err() {
        kept.drop_page(path, page.stamp);
        return said;
    }
    match end_put(store, kept, path, page) {
        Ok(_) => said,
        Err(_) => Err(Memory),
    }
}

/// What a put did, by the stamp of the page that stood there.
pub fn put_over(before: Option<u64>) -> Put
    ensures { result ≡ (if is_some before then Put.Replaced else Put.Created) }
{
    match before {
        Some(_) => Put::Replaced,
        None => Put::Created,
    }
}

/// Removes the page of a path with what is kept of it.
pub fn remove(store: &mut Store, kept: &mut KeptPages, path: &Path) -> bool
    ensures answer { result ≡ map.contains_key store.old.site.pages path.now }
    ensures store { store.new ≡ without_page store.old path.now }
    ensures kept { (render : Renders) → IsStore store.old → IsKept render store.old kept.old
        → IsEdited render store.old store.new kept.new }
    ensures texts { kept.new.with_texts ≡ kept.old.with_texts }
{
    let before = stamp_at(store, path);
    let_go(kept, path, before);
    store.remove(path)
}

/// Moves a page, for which memory alone may be refused, with what is kept of it.
pub fn move_page(
    store: &mut Store,
    kept: &mut KeptPages,
    from: &Path,
    to: &Path,
    stamp: u64,
) -> Result<(), MoveError>
    requires may { may_move store.old from.now to.now ≡ Ok tt }
    requires next { stamp ≡ store.old.puts }
    requires free { IsFree kept.old to.now stamp }
    ensures store { Gives MoveError.Memory
        (moved_in store.old from.now to.now) store.old store.new result }
    ensures kept { (render : Renders) → IsStore store.old → IsKept render store.old kept.old
        → IsEdited render store.old store.new kept.new }
    ensures texts { kept.new.with_texts ≡ kept.old.with_texts }
{
    let Some(before) = stamp_at(store, from) else {
        return Err(MoveError::NoPage);
    };
    kept.carry(from, before, to, stamp)?;
    let moved = store.move_page(from, to);
    if moved.is_ok() {
        kept.drop_page(from, before);
    } else {
        kept.drop_page(to, stamp);
    }
    moved
}

/// The stamp that the page at a path has, where one stands there.
fn stamp_at(store: &Store, path: &Path) -> Option<u64>
    ensures stamp { result ≡ map.get store.now.stamps path.now }
    ensures store { IsStore store.now }
{
    match store.get(path) {
        Some(page) => Some(page.stamp()),
        None => None,
    }
}

/// Lets what is kept under a path and a stamp go, if any.
fn let_go(kept: &mut KeptPages, path: &Path, stamp: Option<u64>)
    ensures { kept.new ≡ let_go kept.old path.now stamp }
{
    if let Some(stamp) = stamp {
        kept.drop_page(path, stamp);
    }
}
