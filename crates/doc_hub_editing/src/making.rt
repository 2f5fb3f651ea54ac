//! Edits that were answered, as they are made.

ghost use Rattle.std.specs.Prelude.{◌≡◌, OnErr, OnOk, Some, Ok};
ghost use Rattle.std.specs.FinMap as map;
ghost use Rattle.doc_store.specs.Store.{fits_in, may_move, with_move, with_page};
ghost use Rattle.doc_hub_people.specs.Counts.{RendersPuts, moves_of};
ghost use Rattle.doc_hub_people.specs.Edits.{CanBeMade, CanMove, CanRegroup, regrouped, store_after};

use doc_hub_people::Shelf;
use doc_hub_people::edit::Edit;
use doc_page::renderer::Renderer;
use doc_page_parts::failure::Memory;
use doc_page_parts::heap::Heap;
use doc_page_parts::path::Path;
use doc_page_parts::text::Text;
use doc_store::groups::Groups;
use std::str::from_utf8;

/// Makes the edit of a request with this body, which can be made. Where memory is refused the pages are as they were.
pub(crate) fn make<R: Renderer + Drop>(
    heap: Heap,
    shelf: &mut Shelf<R>,
    body: &[u8],
    edit: &Option<Edit>,
) -> Result<(), Memory>
    requires { CanBeMade shelf.old.1 body.now edit.now }
    ensures made { OnOk result (shelf.new.1 ≡ store_after shelf.old.1 body.now edit.now) }
    ensures refused { OnErr result (shelf.new.1 ≡ shelf.old.1) }
    ensures same { R.page shelf.new.0 ≡ R.page shelf.old.0 }
    ensures counted { OnOk result (RendersPuts (R.count shelf.old.0) shelf.old.1.puts
        (R.count shelf.new.0) shelf.new.1.puts (moves_of edit.now) 0) }
{
    match edit {
        None => Ok(()),
        Some(Edit::Put(path, groups)) => put_body(shelf, path, groups, body),
        Some(Edit::Regroup(path, groups)) => regroup(heap, shelf, path, groups),
        Some(Edit::Move(from, to)) => move_page(shelf, from, to),
        Some(Edit::Remove(path)) => {
            shelf.remove(path);
            Ok(())
        }
    }
}

/// Puts a page whose text is the body.
fn put_body<R: Renderer + Drop>(
    shelf: &mut Shelf<R>,
    path: &Path,
    groups: &Groups,
    body: &[u8],
) -> Result<(), Memory>
    requires { CanBeMade shelf.old.1 body.now (Some (Edit.Put path.now groups.now)) }
    ensures made { OnOk result (shelf.new.1 ≡ with_page shelf.old.1 path.now
        (record { groups = groups.now; text = body.now })) }
    ensures refused { OnErr result (shelf.new.1 ≡ shelf.old.1) }
    ensures same { R.page shelf.new.0 ≡ R.page shelf.old.0 }
    ensures counted { OnOk result (RendersPuts (R.count shelf.old.0) shelf.old.1.puts
        (R.count shelf.new.0) shelf.new.1.puts 0 0) }
{
    let Ok(text) = from_utf8(body) else {
        unreachable!()
    };
    put(shelf, path, groups, text)
}

/// Puts the page of a path anew, for these groups.
fn regroup<R: Renderer + Drop>(
    heap: Heap,
    shelf: &mut Shelf<R>,
    path: &Path,
    groups: &Groups,
) -> Result<(), Memory>
    requires { CanRegroup shelf.old.1 path.now (map.get shelf.old.1.site.pages path.now) }
    ensures made { OnOk result (shelf.new.1 ≡ regrouped shelf.old.1 path.now groups.now
        (map.get shelf.old.1.site.pages path.now)) }
    ensures refused { OnErr result (shelf.new.1 ≡ shelf.old.1) }
    ensures same { R.page shelf.new.0 ≡ R.page shelf.old.0 }
    ensures counted { OnOk result (RendersPuts (R.count shelf.old.0) shelf.old.1.puts
        (R.count shelf.new.0) shelf.new.1.puts 0 0) }
{
    let Some(page) = shelf.store().get(path) else {
        unreachable!()
    };
    let text = Text::copy_of(heap, page.text())?;
    put(shelf, path, groups, text.get())
}

/// Puts a page that fits.
fn put<R: Renderer + Drop>(
    shelf: &mut Shelf<R>,
    path: &Path,
    groups: &Groups,
    text: &str,
) -> Result<(), Memory>
    requires { fits_in shelf.old.1 path.now text.now ≡ Ok tt }
    ensures made { OnOk result (shelf.new.1 ≡ with_page shelf.old.1 path.now
        (record { groups = groups.now; text = text.now })) }
    ensures refused { OnErr result (shelf.new.1 ≡ shelf.old.1) }
    ensures same { R.page shelf.new.0 ≡ R.page shelf.old.0 }
    ensures counted { OnOk result (RendersPuts (R.count shelf.old.0) shelf.old.1.puts
        (R.count shelf.new.0) shelf.new.1.puts 0 0) }
{
    match shelf.put(path, groups, text) {
        Ok(_) => Ok(()),
        Err(_) => Err(Memory),
    }
}

/// Moves a page that can be moved.
fn move_page<R: Renderer + Drop>(shelf: &mut Shelf<R>, from: &Path, to: &Path) -> Result<(), Memory>
    requires { CanMove shelf.old.1 from.now to.now }
    ensures made { OnOk result (shelf.new.1 ≡ with_move shelf.old.1 from.now to.now) }
    ensures refused { OnErr result (shelf.new.1 ≡ shelf.old.1) }
    ensures same { shelf.new.0 ≡ shelf.old.0 }
{
    let Some(_) = shelf.store().get(from) else {
        unreachable!()
    };
    move_fitting(shelf, from, to)
}

/// Moves a page that may be moved.
fn move_fitting<R: Renderer + Drop>(
    shelf: &mut Shelf<R>,
    from: &Path,
    to: &Path,
) -> Result<(), Memory>
    requires { may_move shelf.old.1 from.now to.now ≡ Ok tt }
    ensures made { OnOk result (shelf.new.1 ≡ with_move shelf.old.1 from.now to.now) }
    ensures refused { OnErr result (shelf.new.1 ≡ shelf.old.1) }
    ensures same { shelf.new.0 ≡ shelf.old.0 }
{
    match shelf.move_page(from, to) {
        Ok(()) => Ok(()),
        Err(_) => Err(Memory),
    }
}
