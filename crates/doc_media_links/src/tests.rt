use crate::{BesideLinker, push_broken_images};
use doc_links_pages::answers::Broken;
use doc_media::kind::MediaKind;
use doc_media::media::Media;
use doc_page_parts::bytes::Bytes;
use doc_page_parts::heap::{Heap, Vec};
use doc_page_parts::linker::{Linker, Shown};
use doc_page_parts::path::Path;
use doc_page_parts::sight::Sight;
use doc_page_parts::text::Text;
use doc_store_readers::groups::Groups;
use doc_store_readers::reader::Reader;
use std::test::Fail;

/// What a reader sees of a site without pages.
struct NoPages;

impl Sight for NoPages {
    ghost use Rattle.std.specs.Prelude.{None};

    ghost goals = { λ sight path. None };

    fn sees(&self, _path: &Path) -> bool {
        false
    }

    fn goal(&self, _path: &Path) -> Option<&Path> {
        None
    }
}

/// The medium `guide/doc/spec.PDF` for the group `staff`.
fn media(heap: Heap) -> Result<Option<Media>, Fail> {
    let mut media = Media::new(heap);
    let path = Path::new(heap, "guide/doc/spec.PDF")?;
    let groups = Groups::new(heap, "staff")?;
    let bytes = Bytes::copy_of(heap, b"8 bytes!")?;
    let Some(kind) = MediaKind::of(&path) else {
        return Ok(None);
    };
    media.add(&path, &groups, kind, bytes)?;
    Ok(Some(media))
}

/// The address of a link in `guide/start.md` for a reader of these groups.
fn href_is(heap: Heap, groups: &str, dest: &str, href: Option<&str>) -> Result<bool, Fail> {
    let media = media(heap)?;
    let page = Path::new(heap, "guide/start.md")?;
    let reader = Reader {
        owner: false,
        groups: Groups::new(heap, groups)?,
    };
    let linker = BesideLinker::new(&page, &NoPages, &media, &reader);
    let how = linker.show(heap, dest)?;
    Ok(match &how {
        Shown::Href(text) => href == Some(text.get()),
        Shown::Missing => href.is_none(),
    })
}

#[test]
fn links_to_media(rt: HostRuntime) -> Result<(), Fail> {
    let heap = rt.alloc();
    let spec = Some("/page/guide/doc/spec.PDF");
    let second = Some("/page/guide/doc/spec.PDF#page=2");
    assert!(rt; href_is(heap, "staff", "doc/spec.PDF", spec)?);
    assert!(rt; href_is(heap, "staff", "doc/spec.PDF#page=2", second)?);
    assert!(rt; href_is(heap, "ops", "doc/spec.PDF", None)?);
    assert!(rt; href_is(heap, "staff", "z.zip", None)?);
    Ok(())
}

/// Those of three images of `guide/start.md` that show nothing to a reader of these groups.
fn broken_images(heap: Heap, groups: &str) -> Result<Vec<Broken>, Fail> {
    let media = media(heap)?;
    let page = Path::new(heap, "guide/start.md")?;
    let reader = Reader {
        owner: false,
        groups: Groups::new(heap, groups)?,
    };
    let images = [
        Text::copy_of(heap, "https://h/z.png")?,
        Text::copy_of(heap, "doc/spec.PDF")?,
        Text::copy_of(heap, "z.png")?,
    ];
    let mut all = Vec::new(heap);
    push_broken_images(heap, &mut all, &page, &images, &media, &reader)?;
    Ok(all)
}

fn is_told(image: Option<&Broken>, place: u64, target: &str) -> bool {
    let Some(image) = image else {
        return false;
    };
    image.place == place && image.target.get() == target
}

#[test]
fn images_that_show_nothing(rt: HostRuntime) -> Result<(), Fail> {
    let heap = rt.alloc();
    let of_staff = broken_images(heap, "staff")?;
    assert!(rt; of_staff.len() == 1);
    assert!(rt; is_told(of_staff.get(0), 3, "guide/z.png"));
    let of_ops = broken_images(heap, "ops")?;
    assert!(rt; of_ops.len() == 2);
    assert!(rt; is_told(of_ops.get(0), 2, "guide/doc/spec.PDF"));
    assert!(rt; is_told(of_ops.get(1), 3, "guide/z.png"));
    Ok(())
}
