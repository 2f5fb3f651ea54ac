//! Edits at the end of a list.

ghost use Rattle.std.specs.Prelude.{◌≡◌, ◌++◌, ◌∷◌, [], OnOk};
ghost use Rattle.doc_store_readers.specs.Groups.{texts_of};
ghost use Rattle.doc_store.specs.Store.{set_page, remove_page, move_page};
ghost use Rattle.doc_server_script.specs.Compactions.{made_along, moves};

use doc_page_parts::failure::Memory;
use doc_page_parts::heap::{Heap, Vec};
use doc_page_parts::path::Path;
use doc_page_parts::text::Text;
use doc_store::page::Page;
use doc_store::site_edit::SiteEdit;

/// Adds a put.
pub(crate) fn push_put(
    heap: Heap,
    path: &Path,
    page: &Page,
    edits: &mut Vec<SiteEdit>,
) -> Result<(), Memory>
    ensures { OnOk result (edits.new.items
        ≡ edits.old.items ++ set_page path.now page.now.page ∷ []) }
{
    let path = path.copy(heap)?;
    let groups = page.groups().copy(heap)?;
    let text = Text::copy_of(heap, page.text())?;
    edits.push(SiteEdit::Put(path, groups, text))?;
    Ok(())
}

/// Adds a removal.
pub(crate) fn push_removal(heap: Heap, path: &Path, edits: &mut Vec<SiteEdit>) -> Result<(), Memory>
    ensures { OnOk result (edits.new.items ≡ edits.old.items ++ remove_page path.now ∷ []) }
{
    edits.push(SiteEdit::Remove(path.copy(heap)?))?;
    Ok(())
}

/// Adds a move.
fn push_move(heap: Heap, from: &Path, to: &Path, edits: &mut Vec<SiteEdit>) -> Result<(), Memory>
    ensures { OnOk result (edits.new.items
        ≡ edits.old.items ++ move_page from.now to.now ∷ []) }
{
    edits.push(SiteEdit::Move(from.copy(heap)?, to.copy(heap)?))?;
    Ok(())
}

/// Adds the edits that make a page along its names: a put under the first of them, and a move from each to the next.
pub(crate) fn push_along(
    heap: Heap,
    page: &Page,
    names: &[&Path],
    edits: &mut Vec<SiteEdit>,
) -> Result<(), Memory>
    ensures { OnOk result (edits.new.items
        ≡ edits.old.items ++ made_along page.now.page (texts_of names.now)) }
{
    match names {
        [] => Ok(()),
        [first, others @ ..] => {
            push_put(heap, first, page, edits)?;
            push_moves(heap, first, others, edits)
        }
    }
}

/// Adds a move from each name to the next.
fn push_moves(
    heap: Heap,
    from: &Path,
    names: &[&Path],
    edits: &mut Vec<SiteEdit>,
) -> Result<(), Memory>
    ensures { OnOk result (edits.new.items ≡ edits.old.items ++ moves from.now (texts_of names.now)) }
{
    let mut last = from;
    'names: for name in names {
        push_move(heap, last, name, edits)?;
        last = *name;
    }
    Ok(())
}
