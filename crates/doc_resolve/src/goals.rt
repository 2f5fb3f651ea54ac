//! Which pages the links of a page lead to.

ghost use Rattle.std.specs.Prelude.{◌≡◌, IfOk};
ghost use Rattle.doc_resolve.specs.Decisions.{decisions, goals_of, goal_of};

use crate::link_kind::LinkKind;
use crate::links::kinds;
use doc_page_parts::failure::Memory;
use doc_page_parts::heap::{Heap, Vec};
use doc_page_parts::list::List;
use doc_page_parts::path::Path;
use doc_page_parts::rendered::Rendered;
use doc_page_parts::sight::Sight;

/// The page that each link of the page at this path leads to for a reader, in the order of the links; `None` of a link that leads to
/// no page that the reader sees, and of one out of the site. It is for callers from outside: the product takes the links' kinds.
pub fn decisions<S: Sight>(
    heap: Heap,
    page: &Path,
    rendered: &Rendered,
    sight: &S,
) -> Result<List<Option<Path>>, Memory>
    ensures { IfOk result (λ all. all ≡ decisions (S.goals sight.now) page.now rendered.now) }
{
    let links = kinds(heap, page, rendered.pieces.get())?;
    Ok(List::new(goals_of(heap, &links, sight)?))
}

/// The page that each of these links leads to for a reader, in order; `None` as of `decisions`.
pub fn goals_of<S: Sight>(
    heap: Heap,
    links: &[LinkKind],
    sight: &S,
) -> Result<Vec<Option<Path>>, Memory>
    ensures { IfOk result (λ all. all.items ≡ goals_of (S.goals sight.now) links.now) }
{
    let mut all = Vec::with_capacity(heap, links.len())?;
    for link in links {
        all.push(goal_of(heap, link, sight)?)?;
    }
    Ok(all)
}

/// The page that a link leads to.
fn goal_of<S: Sight>(heap: Heap, kind: &LinkKind, sight: &S) -> Result<Option<Path>, Memory>
    ensures { IfOk result (λ goal. goal ≡ goal_of (S.goals sight.now) kind.now) }
{
    let LinkKind::Page { path, anchor: _ } = kind else {
        return Ok(None);
    };
    let Some(goal) = sight.goal(path) else {
        return Ok(None);
    };
    Ok(Some(goal.copy(heap)?))
}
