//! The edits of a reload happen.

ghost use Rattle.std.specs.Prelude.{◌≡◌, IfOk};
ghost use Rattle.doc_server_restore.specs.Restores.{all_made, made};
ghost use Rattle.doc_server_restore.specs.RestoreSteps.{Tells};

use doc_page_parts::failure::Memory;
use doc_server_restore::edits::Edits;
use doc_store::site_edit::SiteEdit;

/// Makes some edits in their order, up to the first that is refused, and answers whether each was accepted. Where one isn't, or memory
/// fails, the edits before it stand.
pub fn make_led<E: Edits>(site: &mut E, edits: &[SiteEdit]) -> Result<bool, Memory>
    ensures made { IfOk result (λ accepted. Tells accepted
        (all_made (E.media site.old) (E.store site.old) edits.now) (E.store site.new)) }
    ensures alike { E.alike site.old site.new }
{
    for edit in edits {
        if !make_edit(site, edit)? {
            return Ok(false);
        }
    }
    Ok(true)
}

/// Makes an edit, and answers whether it is accepted.
fn make_edit<E: Edits>(site: &mut E, edit: &SiteEdit) -> Result<bool, Memory>
    ensures made { IfOk result (λ accepted. Tells accepted
        (made (E.media site.old) (E.store site.old) edit.now) (E.store site.new)) }
    ensures alike { E.alike site.old site.new }
{
    match edit {
        SiteEdit::Put(path, groups, text) => site.make_put(path, groups, text.get()),
        SiteEdit::Remove(path) => {
            site.make_remove(path);
            Ok(true)
        }
        SiteEdit::Move(from, to) => site.make_move(from, to),
    }
}
