use crate::kind::MediaKind;
use crate::media::{Media, MediaError};
use doc_page_parts::bytes::Bytes;
use doc_page_parts::heap::Heap;
use doc_page_parts::path::Path;
use doc_store_readers::groups::Groups;
use doc_store_readers::reader::Reader;
use std::test::Fail;

/// Adds eight bytes for the group `staff`, where the path names a kind.
fn add_for_staff(media: &mut Media, heap: Heap, path: &Path) -> Result<Option<MediaError>, Fail> {
    let groups = Groups::new(heap, "staff")?;
    let bytes = Bytes::copy_of(heap, b"8 bytes!")?;
    let Some(kind) = MediaKind::of(path) else {
        return Ok(None);
    };
    Ok(media.add(path, &groups, kind, bytes).err())
}

fn reader_of(heap: Heap, groups: &str) -> Result<Reader, Fail> {
    Ok(Reader {
        owner: false,
        groups: Groups::new(heap, groups)?,
    })
}

#[test]
fn a_picture_is_seen_by_its_readers(rt: HostRuntime) -> Result<(), Fail> {
    let heap = rt.alloc();
    let mut media = Media::new(heap);
    let path = Path::new(heap, "guide/pic.PNG")?;
    assert!(rt; add_for_staff(&mut media, heap, &path)?.is_none());
    let ann = reader_of(heap, "ops,staff")?;
    let bob = reader_of(heap, "ops")?;
    let bytes = media.seen(&ann, &path).map(|medium| medium.bytes.get());
    assert!(rt; bytes == Some(b"8 bytes!".as_slice()));
    assert!(rt; media.seen(&bob, &path).is_none());
    assert!(rt; media.get(&path).is_some());
    assert!(rt; media.contains(&path));
    Ok(())
}

#[test]
fn a_path_is_taken_once(rt: HostRuntime) -> Result<(), Fail> {
    let heap = rt.alloc();
    let mut media = Media::new(heap);
    let path = Path::new(heap, "t.csv")?;
    assert!(rt; add_for_staff(&mut media, heap, &path)?.is_none());
    let again = add_for_staff(&mut media, heap, &path)?;
    assert!(rt; again == Some(MediaError::Taken));
    Ok(())
}

#[test]
fn a_copy_has_the_same_media(rt: HostRuntime) -> Result<(), Fail> {
    let heap = rt.alloc();
    let mut media = Media::new(heap);
    for text in ["t.csv", "guide/pic.PNG"] {
        let path = Path::new(heap, text)?;
        assert!(rt; add_for_staff(&mut media, heap, &path)?.is_none());
    }
    let copy = media.copy(heap)?;
    let mut paths = copy.paths();
    assert!(rt; paths.next().map(|path| path.text()) == Some("guide/pic.PNG"));
    assert!(rt; paths.next().map(|path| path.text()) == Some("t.csv"));
    assert!(rt; paths.next().is_none());
    let ann = reader_of(heap, "staff")?;
    let path = Path::new(heap, "t.csv")?;
    let bytes = copy.seen(&ann, &path).map(|medium| medium.bytes.get());
    assert!(rt; bytes == Some(b"8 bytes!".as_slice()));
    assert!(rt; Media::new(heap).copy(heap)?.paths().next().is_none());
    Ok(())
}

/// The names that the registry of media types (IANA) has.
#[test]
fn media_types(rt: HostRuntime) -> Result<(), Fail> {
    assert!(rt; MediaKind::Svg.content_type() == "image/svg+xml");
    assert!(rt; MediaKind::Ico.content_type() == "image/vnd.microsoft.icon");
    Ok(())
}
