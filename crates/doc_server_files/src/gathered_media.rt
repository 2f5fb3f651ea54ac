//! The media of a configuration's folders, gathered for its site.

ghost use Rattle.std.specs.Prelude.{◌≡◌, IfOk};
ghost use Rattle.doc_server_config.specs.Overlaps.{media_paths};

use doc_media::kind::MediaKind;
use doc_media::media::{Media, MediaError};
use doc_page_parts::failure::Memory;
use doc_page_parts::heap::{Heap, Vec};
use doc_page_parts::list::List;
use doc_page_parts::path::Path;
use doc_server_config::folder::Folder;
use doc_server_config::folder_pages::FolderMedium;
use doc_server_streams::fault::Fault;

/// The media of a site; none where no folder asks for any. `Refused` says that one has the path of another, which they haven't where
/// they are apart.
pub fn gathered_media(
    heap: Heap,
    folders: &[Folder],
    media: Vec<FolderMedium>,
) -> Result<Option<Media>, Fault> {
    if !folders.iter().any(|folder| folder.media.is_some()) {
        return Ok(None);
    }
    let mut gathered = Media::new(heap);
    for medium in media {
        add_medium(&mut gathered, medium)?;
    }
    Ok(Some(gathered))
}

/// Adds a medium.
fn add_medium(gathered: &mut Media, medium: FolderMedium) -> Result<(), Fault> {
    let FolderMedium {
        path,
        groups,
        kind: _,
        bytes,
    } = medium;
    let Some(kind) = MediaKind::of(&path) else {
        return Err(Fault::Refused);
    };
    match gathered.add(&path, &groups, kind, bytes) {
        Ok(()) => Ok(()),
        Err(MediaError::Memory) => Err(Fault::Memory),
        Err(_) => Err(Fault::Refused),
    }
}

/// The paths of media, in their order.
pub fn paths_of_media(heap: Heap, media: &[FolderMedium]) -> Result<List<Path>, Memory>
    ensures { IfOk result (λ paths. paths ≡ media_paths media.now) }
{
    let mut paths = Vec::new(heap);
    for medium in media {
        paths.push(medium.path.copy(heap)?)?;
    }
    Ok(List::new(paths))
}

/// Whether the media of these paths, which are all of some, are those that are served, which are as many.
pub fn are_served(served: &Option<Media>, media: &Option<Media>, paths: &[Path]) -> bool {
    match (served, media) {
        (Some(served), Some(media)) => paths.iter().all(|path| have_same(served, media, path)),
        (None, None) => true,
        _ => false,
    }
}

/// Whether the same medium stands under a path in both.
fn have_same(served: &Media, media: &Media, path: &Path) -> bool {
    match (served.get(path), media.get(path)) {
        (Some(one), Some(other)) => {
            one.groups == other.groups && one.bytes.get() == other.bytes.get()
        }
        _ => false,
    }
}
