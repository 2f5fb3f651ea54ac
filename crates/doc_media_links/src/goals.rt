//! Which pages and which media links lead to.

ghost use Rattle.std.specs.Prelude.{◌≡◌, IfOk, Some};
ghost use Rattle.doc_media.specs.Media.{beside_of, goal_beside};
ghost use Rattle.doc_media_links.specs.MediaLinks.{sees_medium};
ghost use Rattle.doc_resolve.specs.Decisions.{goal_of, goals_of};

use crate::leading::sees_medium;
use doc_media::media::Media;
use doc_page_parts::failure::Memory;
use doc_page_parts::heap::{Heap, Vec};
use doc_page_parts::path::Path;
use doc_page_parts::sight::Sight;
use doc_resolve::LinkKind;
use doc_store_readers::reader::Reader;

/// The page or else the medium that each of these links leads to for a reader, in order; `None` of a link that leads to none that the
/// reader sees, and of one out of the site.
pub fn goals_beside<S: Sight>(
    heap: Heap,
    links: &[LinkKind],
    sight: &S,
    media: &Option<Media>,
    reader: &Reader,
) -> Result<Vec<Option<Path>>, Memory>
    ensures { IfOk result (λ all. all.items ≡ goals_of (goal_beside (S.goals sight.now)
        (beside_of media.now (Some reader.now))) links.now) }
{
    let mut all = Vec::with_capacity(heap, links.len())?;
    for link in links {
        all.push(goal_of(heap, link, sight, media, reader)?)?;
    }
    Ok(all)
}

/// The page or else the medium that a link leads to.
fn goal_of<S: Sight>(
    heap: Heap,
    link: &LinkKind,
    sight: &S,
    media: &Option<Media>,
    reader: &Reader,
) -> Result<Option<Path>, Memory>
    ensures { IfOk result (λ goal. goal ≡ goal_of (goal_beside (S.goals sight.now)
        (beside_of media.now (Some reader.now))) link.now) }
{
    match link {
        LinkKind::Page { path, anchor: _ } => goal_at(heap, path, sight, media, reader),
        LinkKind::External | LinkKind::Nowhere => Ok(None),
    }
}

/// The page or else the medium that a path leads to.
fn goal_at<S: Sight>(
    heap: Heap,
    path: &Path,
    sight: &S,
    media: &Option<Media>,
    reader: &Reader,
) -> Result<Option<Path>, Memory>
    ensures { IfOk result (λ goal. goal ≡ goal_beside (S.goals sight.now)
        (beside_of media.now (Some reader.now)) path.now) }
{
    if let Some(goal) = sight.goal(path) {
        return Ok(Some(goal.copy(heap)?));
    }
    if !is_medium(path, media, reader) {
        return Ok(None);
    }
    Ok(Some(path.copy(heap)?))
}

/// Whether a medium that the reader sees stands under a path, where there are media.
fn is_medium(path: &Path, media: &Option<Media>, reader: &Reader) -> bool
    ensures { result ≡ sees_medium (beside_of media.now (Some reader.now)) path.now }
{
    match media {
        Some(media) => sees_medium(media, reader, path),
        None => false,
    }
}
