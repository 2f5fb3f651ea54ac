//! The pages that link to a page.

ghost use Rattle.std.specs.Prelude.{◌≡◌, ◌++◌, ◌==◌, [], ◌∷◌, count_by, IfOk, OnOk, if◌then◌else◌};
ghost use Rattle.doc_page_parts.specs.Sights.{leads_to_itself};
ghost use Rattle.doc_links_seen.specs.SeenSteps.{IsInOrder};
ghost use Rattle.doc_links.specs.IndexSteps.{goes_to, source_of, sources_of};
ghost use Rattle.doc_links_pages.specs.Links.{backlinks};
ghost use Rattle.doc_links_seen.specs.SeenPages.{seen_page, seen_pages};

use doc_links_seen::seen::{SeenPage, page_at};
use doc_page_parts::failure::Memory;
use doc_page_parts::heap::{Heap, Vec};
use doc_page_parts::list::List;
use doc_page_parts::path::Path;
use doc_page_parts::sight::Sight;
use doc_resolve::LinkKind;

/// Those of these pages that have links to a target, where that is one of them, each with their number. The pages are all that the
/// sight sees, and stand in the order of their paths.
pub fn sources_in<S: Sight>(
    heap: Heap,
    pages: &[SeenPage],
    target: &Path,
    sight: &S,
) -> Result<List<(Path, u64)>, Memory>
    requires { IsInOrder (seen_pages pages.now) }
    ensures { IfOk result (λ all.
        all ≡ backlinks (S.goals sight.now) (seen_pages pages.now) target.now) }
{
    if page_at(pages, target).is_none() {
        return Ok(List::new(Vec::new(heap)));
    }
    sources_of(heap, pages, target, sight)
}

/// Those of these pages that have links which the sight leads to a target.
fn sources_of<S: Sight>(
    heap: Heap,
    pages: &[SeenPage],
    target: &Path,
    sight: &S,
) -> Result<List<(Path, u64)>, Memory>
    ensures { IfOk result (λ all.
        all ≡ sources_of (S.goals sight.now) target.now (seen_pages pages.now)) }
{
    let mut all = Vec::new(heap);
    for page in pages {
        let count = count_to(page.links(), target, sight);
        push_source(heap, &mut all, page.path(), count as u64)?;
    }
    Ok(List::new(all))
}

/// Adds a page, where it has such links.
pub(crate) fn push_source(
    heap: Heap,
    all: &mut Vec<(Path, u64)>,
    page: &Path,
    count: u64,
) -> Result<(), Memory>
    ensures { OnOk result (all.new.items ≡ all.old.items ++ source_of page.now count) }
{
    if count == 0 {
        return Ok(());
    }
    all.push((page.copy(heap)?, count))?;
    Ok(())
}

/// How many of these links the sight leads to a target.
pub(crate) fn count_to<S: Sight>(links: &[LinkKind], target: &Path, sight: &S) -> usize
    ensures { result ≡ count_by (goes_to (S.goals sight.now) target.now) links.now }
{
    let mut count = 0;
    for link in links {
        if goes_to(link, target, sight) {
            count += 1;
        }
    }
    count
}

/// Whether the sight leads a link to a target.
fn goes_to<S: Sight>(link: &LinkKind, target: &Path, sight: &S) -> bool
    ensures { result ≡ goes_to (S.goals sight.now) target.now link.now }
{
    let LinkKind::Page { path, anchor: _ } = link else {
        return false;
    };
    let Some(goal) = sight.goal(path) else {
        return false;
    };
    goal == target
}
