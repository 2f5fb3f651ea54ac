//! What written paths lead to, each asked for once.

ghost use Rattle.std.specs.Prelude.{◌≡◌, ℕ, List as Seq, Option as Maybe, option_and_then, option_copied, option_map};
ghost use Rattle.doc_links_pages.specs.Links.{page_among, page_at};
ghost use Rattle.doc_links_pages.specs.declared.page_links.PageLinks.{PageLinks};
ghost use Rattle.doc_links_seen.specs.Memos.{IsMemo};
ghost use Rattle.doc_links_seen.specs.SeenPages.{seen_page, seen_pages};
ghost use Rattle.doc_links_seen.specs.SeenSteps.{IsInOrder};

use crate::seen::{SeenPage, page_at};
use doc_page_parts::heap::{BTreeMap, Heap};
use doc_page_parts::path::Path;
use doc_page_parts::sight::Sight;

/// The pages that written paths lead to, as far as they were asked for. It serves one call, over one sight and the pages seen by it.
#[derive(Drop)]
pub(crate) struct Memo<'a> {
    known: BTreeMap<&'a str, Option<SeenPage<'a>>>,
}

impl<'a> Memo<'a> {
    pub fn new(heap: Heap) -> Memo<'a>
        ensures { (goals : Seq ℕ → Maybe (Seq ℕ)) (pages : Seq (Seq ℕ × PageLinks))
            → IsMemo goals pages result }
    {
        Memo {
            known: BTreeMap::new(heap),
        }
    }

    /// The page that a path leads to, where it is one of these. It is asked for where it isn't known; without memory it stays unknown.
    pub fn page_among<S: Sight>(
        &mut self,
        path: &'a Path,
        pages: &[SeenPage<'a>],
        sight: &S,
    ) -> Option<SeenPage<'a>>
        requires { IsMemo (S.goals sight.now) (seen_pages pages.now) self.old }
        ensures page { IsInOrder (seen_pages pages.now) → option_map seen_page result
            ≡ page_among (S.goals sight.now) (seen_pages pages.now) path.now }
        ensures memo { IsMemo (S.goals sight.now) (seen_pages pages.now) self.new }
    {
        if let Some(page) = self.known.get(path.text()) {
            return *page;
        }
        let page = page_among(pages, sight.goal(path));
        let _ = self.known.insert(path.text(), page);
        page
    }
}

/// The page at a path, where there is one and it is one of these.
fn page_among<'a>(pages: &[SeenPage<'a>], goal: Option<&Path>) -> Option<SeenPage<'a>>
    ensures { IsInOrder (seen_pages pages.now) → option_map seen_page result
        ≡ option_and_then (page_at (seen_pages pages.now)) (option_copied goal.entry) }
{
    let Some(goal) = goal else {
        return None;
    };
    page_at(pages, goal)
}
