//! What two sites have alike.

ghost use Rattle.std.specs.Prelude.{◌≡◌, ◌==◌, ◌&&◌, ◌++◌, ◌∷◌, [], Some, true, not, length, IfOk};
ghost use Rattle.std.specs.FinMap as map;
ghost use Rattle.doc_store_readers.specs.Groups.{texts_of};
ghost use Rattle.doc_store.specs.Names.{aliases_of};
ghost use Rattle.doc_server_script.specs.Compactions.{same_pages, same_texts};
ghost use Rattle.doc_server_reload.specs.Leads.{stands_so};

use doc_page_parts::failure::Memory;
use doc_page_parts::heap::Vec;
use doc_page_parts::path::Path;
use doc_store::page::Page;
use doc_store::store::Store;

/// Whether a page stands under a path in both sites, with the same aliases.
pub(crate) fn stands_so(old: &Store, new: &Store, path: &Path) -> Result<bool, Memory>
    ensures { IfOk result (λ so. so ≡ stands_so old.now.site new.now.site path.now) }
{
    let names = old.names_of(path)?;
    let others = new.names_of(path)?;
    Ok(have_same_names(names.as_slice(), others.as_slice()))
}

/// Whether two sites have the same page under a path, or none, whatever its aliases.
pub(crate) fn have_same_page(old: &Store, new: &Store, path: &Path) -> bool
    ensures { result ≡ same_pages (map.get old.now.site.pages path.now)
        (map.get new.now.site.pages path.now) }
{
    match (old.get(path), new.get(path)) {
        (None, None) => true,
        (Some(page), Some(other)) => is_same_page(page, other),
        _ => false,
    }
}

fn is_same_page(page: &Page, other: &Page) -> bool
    ensures { result ≡ same_pages (Some page.now.page) (Some other.now.page) }
{
    page.groups() == other.groups() && page.text() == other.text()
}

/// Whether a page has names, and another the same.
fn have_same_names(names: &[&Path], others: &[&Path]) -> bool
    ensures { result ≡ (not (length names.now == 0)
        && same_texts (texts_of names.now) (texts_of others.now)) }
{
    !names.is_empty() && are_same_names(names, others)
}

fn are_same_names(names: &[&Path], others: &[&Path]) -> bool
    ensures { result ≡ same_texts (texts_of names.now) (texts_of others.now) }
{
    names == others
}

/// The names of a page, its path behind its aliases.
pub(crate) fn names_of<'a>(site: &'a Store, path: &Path) -> Result<Vec<&'a Path>, Memory>
    requires stands { map.contains_key site.now.site.pages path.now ≡ true }
    ensures { IfOk result (λ names. texts_of names.items
        ≡ aliases_of site.now.site.aliases path.now ++ path.now ∷ []) }
{
    let mut names = site.names_of(path)?;
    names.rotate_left(1);
    Ok(names)
}
