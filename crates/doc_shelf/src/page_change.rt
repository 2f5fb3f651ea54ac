//! What changes of rows when a page is set at a path.

ghost use Rattle.std.specs.Prelude.{◌≡◌, ℕ, List as Seq, None, Some, IfOk, option_copied};
ghost use Rattle.std.specs.FinMap as map;
ghost use Rattle.doc_links_pages.specs.declared.page_links.PageLinks.{PageLinks};
ghost use Rattle.doc_rows_links.specs.LinkRows.{AreTargets};
ghost use Rattle.doc_shelf.specs.Shelves.{IsStanding};
ghost use Rattle.doc_shelf_pages.specs.Shelves.{IsBeingPut};
ghost use Rattle.doc_shelf_pages.specs.Views.{Renders, links_in};
ghost use Rattle.doc_shelf_views.specs.Linking.{linking};
ghost use Rattle.doc_store.specs.Store.{IsStore};

use doc_page_parts::failure::Memory;
use doc_page_parts::heap::Heap;
use doc_page_parts::path::Path;
use doc_rows_links::link_rows::Change;
use doc_rows_links::targets::Targets;
use doc_shelf_pages::KeptPages;
use doc_store::groups::Groups;
use doc_store::store::Store;

/// What changes of rows when a page is set at a path: the groups of the page that stands there, if one does, the paths that it writes, and
/// the paths that the new one writes.
#[derive(Drop)]
pub struct PageChange {
    pub before: Option<Groups>,
    pub old: Targets,
    pub new: Targets,
}

impl PageChange {
    /// No page stands there, and one comes that writes these paths. It takes no memory.
    pub(crate) fn to_none(heap: Heap, new: Targets) -> PageChange
        ensures { result ≡ record { before = None; old = map.empty; new = new } }
    {
        PageChange {
            before: None,
            old: Targets::none(heap),
            new,
        }
    }

    /// What a put changes of a page at a path, of which is kept already under this stamp what its text makes.
    pub(crate) fn of_put(
        heap: Heap,
        store: &Store,
        kept: &KeptPages,
        path: &Path,
        stamp: u64,
    ) -> Result<PageChange, Memory>
        requires next { stamp ≡ store.now.puts }
        ensures stands { IfOk result (λ change. (render : Renders) (text : Seq ℕ)
            → IsStore store.now
            → IsBeingPut render store.now path.now text kept.now
            → IsStanding (linking render) store.now.site.pages path.now change) }
        ensures writes { IfOk result (λ change. (render : Renders) (text : Seq ℕ)
            → IsStore store.now
            → IsBeingPut render store.now path.now text kept.now
            → AreTargets (links_in path.now (render text)).links change.new) }
    {
        let new = targets_at(heap, kept, path, stamp)?;
        let Some(page) = store.get(path) else {
            return Ok(PageChange::to_none(heap, new));
        };
        Ok(PageChange {
            before: Some(page.groups().copy(heap)?),
            old: targets_at(heap, kept, path, page.stamp())?,
            new,
        })
    }

    /// The same with the groups of the new page.
    pub(crate) fn with<'a>(&'a self, groups: &'a Groups) -> Change<'a>
        ensures before { option_copied result.before ≡ self.now.before }
        ensures old { result.old.now ≡ self.now.old }
        ensures groups { result.groups.now ≡ groups.now }
        ensures new { result.new.now ≡ self.now.new }
    {
        Change {
            before: self.before.as_ref(),
            old: &self.old,
            groups,
            new: &self.new,
        }
    }
}

/// The paths that the page writes that is kept under a path and a stamp.
fn targets_at(heap: Heap, kept: &KeptPages, path: &Path, stamp: u64) -> Result<Targets, Memory>
    ensures { IfOk result (λ targets. (known : PageLinks)
        → map.get kept.now.links (path.now, stamp) ≡ Some known → AreTargets known.links targets) }
{
    let Some(links) = kept.links().links_of(path, stamp) else {
        return Ok(Targets::none(heap));
    };
    Targets::of(heap, links)
}
