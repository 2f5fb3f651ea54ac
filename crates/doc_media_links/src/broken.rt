//! Which links are broken where there are media.

ghost use Rattle.std.specs.Prelude.{◌≡◌, ◌∷◌, ◌++◌, [], IfOk, OnOk, Some, filter};
ghost use Rattle.doc_media.specs.Media.{beside_of};
ghost use Rattle.doc_media_links.specs.MediaLinks.{broken_beside, is_medium_at, is_broken, names_medium};

use crate::leading::sees_medium;
use doc_links_pages::answers::{Broken, Reason};
use doc_media::media::Media;
use doc_page_parts::failure::Memory;
use doc_page_parts::heap::{Heap, Vec};
use doc_page_parts::list::List;
use doc_page_parts::path::{Path, PathError};
use doc_store_readers::reader::Reader;

/// Of the links that are broken among pages those that lead to no medium that the reader sees, in order. Where there are no media these
/// are the links themselves.
pub fn unbroken(
    heap: Heap,
    links: List<Broken>,
    media: &Option<Media>,
    reader: &Reader,
) -> Result<List<Broken>, Memory>
    ensures { IfOk result
        (λ found. found ≡ broken_beside (beside_of media.now (Some reader.now)) links) }
{
    let Some(held) = media else {
        return Ok(links);
    };
    let mut found = Vec::new(heap);
    for link in links.into_inner() {
        push_broken(heap, &mut found, link, held, reader)?;
    }
    Ok(List::new(found))
}

/// Adds a link, unless it leads to a medium that the reader sees.
fn push_broken(
    heap: Heap,
    found: &mut Vec<Broken>,
    link: Broken,
    media: &Media,
    reader: &Reader,
) -> Result<(), Memory>
    ensures { OnOk result (found.new.items ≡ found.old.items
        ++ filter (is_broken (beside_of (Some media.now) (Some reader.now))) (link ∷ [])) }
{
    if names_medium(heap, link.reason, link.target.get(), media, reader)? {
        return Ok(());
    }
    found.push(link)?;
    Ok(())
}

/// Whether a link that is broken among pages leads to a medium that the reader sees.
fn names_medium(
    heap: Heap,
    reason: Reason,
    target: &str,
    media: &Media,
    reader: &Reader,
) -> Result<bool, Memory>
    ensures { IfOk result (λ names. names
        ≡ names_medium (beside_of (Some media.now) (Some reader.now)) reason target.now) }
{
    match reason {
        Reason::Page => is_medium_at(heap, target, media, reader),
        Reason::Anchor | Reason::Path | Reason::Image => Ok(false),
    }
}

/// Whether a text is the path of a medium that the reader sees.
fn is_medium_at(heap: Heap, text: &str, media: &Media, reader: &Reader) -> Result<bool, Memory>
    ensures { IfOk result (λ stands. stands
        ≡ is_medium_at (beside_of (Some media.now) (Some reader.now)) text.now) }
{
    match Path::new(heap, text) {
        Ok(path) => Ok(sees_medium(media, reader, &path)),
        Err(PathError::BadPath) => Ok(false),
        Err(PathError::Memory) => Err(Memory),
    }
}
