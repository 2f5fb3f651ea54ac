//! Which images of a page show nothing.

ghost use Rattle.std.specs.Prelude.{◌≡◌, ◌++◌, IfOk, OnOk, None, Some, if◌then◌else◌};
ghost use Rattle.doc_media.specs.Media.{beside_of};
ghost use Rattle.doc_media_links.specs.Images.{broken_images, image_by, image_fault, images_from};
ghost use Rattle.doc_media_links.specs.MediaLinks.{sees_medium};
ghost use Rattle.doc_resolve.specs.Links.{classify};

use crate::leading::sees_medium;
use doc_links_pages::answers::{Broken, Reason};
use doc_media::media::Media;
use doc_page_parts::failure::Memory;
use doc_page_parts::heap::{Heap, Vec};
use doc_page_parts::path::Path;
use doc_page_parts::text::Text;
use doc_resolve::{LinkKind, classify};
use doc_store_readers::reader::Reader;

/// Adds those of the images of the page at this path that show nothing to a reader, in order; none where there are no media. On an error
/// part of them may stand there.
#[tactic(auto, unfolding(crate::specs::Images::broken_images))]
pub fn push_broken_images(
    heap: Heap,
    all: &mut Vec<Broken>,
    page: &Path,
    images: &[Text],
    media: &Option<Media>,
    reader: &Reader,
) -> Result<(), Memory>
    ensures { OnOk result (all.new.items ≡ all.old.items
        ++ broken_images (beside_of media.now (Some reader.now)) page.now images.now) }
{
    let Some(media) = media else {
        return Ok(());
    };
    push_images(heap, all, page, images, media, reader)
}

/// The same where there are media.
fn push_images(
    heap: Heap,
    all: &mut Vec<Broken>,
    page: &Path,
    images: &[Text],
    media: &Media,
    reader: &Reader,
) -> Result<(), Memory>
    ensures { OnOk result (all.new.items ≡ all.old.items
        ++ images_from (beside_of (Some media.now) (Some reader.now)) page.now 1 images.now) }
{
    for (index, image) in images.iter().enumerate() {
        let place = index as u64 + 1;
        push_image(heap, all, page, place, image.get(), media, reader)?;
    }
    Ok(())
}

/// Adds the image of this source and place, where it shows nothing.
fn push_image(
    heap: Heap,
    all: &mut Vec<Broken>,
    page: &Path,
    place: u64,
    image: &str,
    media: &Media,
    reader: &Reader,
) -> Result<(), Memory>
    ensures { OnOk result (all.new.items ≡ all.old.items ++ image_by page.now place
        (image_fault (beside_of (Some media.now) (Some reader.now)) (classify page.now image.now))) }
{
    let kind = classify(heap, page, image)?;
    let Some(target) = image_fault(heap, &kind, media, reader)? else {
        return Ok(());
    };
    let source = page.copy(heap)?;
    all.push(Broken {
        source,
        place,
        reason: Reason::Image,
        target,
    })?;
    Ok(())
}

/// What is told of an image whose source leads there, where it shows nothing.
fn image_fault(
    heap: Heap,
    kind: &LinkKind,
    media: &Media,
    reader: &Reader,
) -> Result<Option<Text>, Memory>
    ensures { IfOk result (λ fault.
        fault ≡ image_fault (beside_of (Some media.now) (Some reader.now)) kind.now) }
{
    match kind {
        LinkKind::External => Ok(None),
        LinkKind::Page { path, anchor: _ } => unless_seen(heap, path, media, reader),
        LinkKind::Nowhere => Ok(Some(Text::copy_of(heap, "-")?)),
    }
}

/// A path, unless a medium that the reader sees stands there.
fn unless_seen(
    heap: Heap,
    path: &Path,
    media: &Media,
    reader: &Reader,
) -> Result<Option<Text>, Memory>
    ensures { IfOk result (λ fault. fault
        ≡ if sees_medium (beside_of (Some media.now) (Some reader.now)) path.now
        then None else Some path.now) }
{
    if sees_medium(media, reader, path) {
        return Ok(None);
    }
    Ok(Some(Text::copy_of(heap, path.text())?))
}
