//! The edits that lead a site to another.

ghost use Rattle.std.specs.Prelude.{◌≡◌, ◌++◌, ◌∷◌, [], true, IfOk, OnOk, map as mapped};
ghost use Rattle.std.specs.FinMap as map;
ghost use Rattle.std.specs.List.{flat_map};
ghost use Rattle.doc_store.specs.Store.{remove_page};
ghost use Rattle.doc_server_script.specs.Compactions.{other_pages, same_at};
ghost use Rattle.doc_server_reload.specs.Leads.{gone_pages, led, led_page, stands_so};
ghost use Rattle.doc_server_reload.specs.LeadSteps.{unless};

use crate::alike::{have_same_page, names_of, stands_so};
use crate::pushing::{push_along, push_put, push_removal};
use doc_page_parts::failure::Memory;
use doc_page_parts::heap::{Heap, Vec};
use doc_page_parts::list::List;
use doc_page_parts::path::Path;
use doc_store::page::Page;
use doc_store::site_edit::SiteEdit;
use doc_store::store::Store;

/// The edits that lead the old site to the new one, in the order in which they are to be made. A page that stands in both under one path,
/// with the same aliases, is replaced where it stands, unless it is the same; any other is removed, and made with its aliases.
#[tactic(auto, unfolding(crate::specs::Leads::led))]
pub fn lead(heap: Heap, old: &Store, new: &Store) -> Result<List<SiteEdit>, Memory>
    ensures { IfOk result (λ edits. edits ≡ led old.now.site new.now.site) }
{
    let mut edits = Vec::new(heap);
    push_removals(heap, old, new, &mut edits)?;
    push_pages(heap, old, new, &mut edits)?;
    Ok(List::new(edits))
}

/// Adds the removals of the pages that don't stand in both sites with the same aliases.
fn push_removals(
    heap: Heap,
    old: &Store,
    new: &Store,
    edits: &mut Vec<SiteEdit>,
) -> Result<(), Memory>
    ensures { OnOk result (edits.new.items ≡ edits.old.items
        ++ mapped (λ entry. remove_page entry.0) (gone_pages old.now.site new.now.site)) }
{
    'entries: for (path, _page) in old.pages() {
        push_removal_of(heap, old, new, path, edits)?;
    }
    Ok(())
}

/// Adds the removal of a page, unless it stands in both sites with the same aliases.
fn push_removal_of(
    heap: Heap,
    old: &Store,
    new: &Store,
    path: &Path,
    edits: &mut Vec<SiteEdit>,
) -> Result<(), Memory>
    ensures { OnOk result (edits.new.items ≡ edits.old.items
        ++ unless (stands_so old.now.site new.now.site path.now) (remove_page path.now ∷ [])) }
{
    if stands_so(old, new, path)? {
        return Ok(());
    }
    push_removal(heap, path, edits)
}

/// Adds the edits of the pages that the new site has otherwise than the old one.
fn push_pages(heap: Heap, old: &Store, new: &Store, edits: &mut Vec<SiteEdit>) -> Result<(), Memory>
    ensures { OnOk result (edits.new.items ≡ edits.old.items
        ++ flat_map (led_page old.now.site new.now.site)
        (other_pages old.now.site new.now.site new.now.site.pages)) }
{
    'entries: for (path, page) in new.pages() {
        push_page(heap, old, new, path, page, edits)?;
    }
    Ok(())
}

/// Adds the edits of a page of the new site, unless both sites have it alike.
fn push_page(
    heap: Heap,
    old: &Store,
    new: &Store,
    path: &Path,
    page: &Page,
    edits: &mut Vec<SiteEdit>,
) -> Result<(), Memory>
    requires stands { map.contains_key new.now.site.pages path.now ≡ true }
    ensures { OnOk result (edits.new.items ≡ edits.old.items
        ++ unless (same_at old.now.site new.now.site path.now)
        (led_page old.now.site new.now.site (path.now, page.now.page))) }
{
    if !stands_so(old, new, path)? {
        let names = names_of(new, path)?;
        return push_along(heap, page, names.as_slice(), edits);
    }
    if have_same_page(old, new, path) {
        return Ok(());
    }
    push_put(heap, path, page, edits)
}
