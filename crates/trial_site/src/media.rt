//! Media, as a line sets them: `PATH | GROUPS | BYTES` for one alone, or nothing where there are none at all.

use crate::given::{bytes_of, groups_of, path_of, two};
use crate::stop::Stop;
use doc_hub::event::Event;
use doc_media::kind::MediaKind;
use doc_media::media::Media;
use doc_page_parts::bytes::Bytes;
use doc_page_parts::heap::Heap;
use doc_page_parts::path::Path;
use doc_store::groups::Groups;

/// The event that sets what a line gives.
pub fn set_media(heap: Heap, given: &str) -> Result<Event, Stop> {
    if given.is_empty() {
        return Ok(Event::SetMedia(None));
    }
    let (path, rest) = two(given)?;
    let (groups, text) = two(rest)?;
    one_medium(heap, path_of(heap, path)?, groups, text)
}

fn one_medium(heap: Heap, path: Path, groups: &str, text: &str) -> Result<Event, Stop> {
    add_medium(heap, &path, groups_of(heap, groups)?, text)
}

fn add_medium(heap: Heap, path: &Path, groups: Groups, text: &str) -> Result<Event, Stop> {
    let Some(kind) = MediaKind::of(path) else {
        return Err(Stop::NoCall);
    };
    let mut media = Media::new(heap);
    let bytes = Bytes::new(bytes_of(heap, text)?);
    match media.add(path, &groups, kind, bytes) {
        Ok(()) => Ok(Event::SetMedia(Some(media))),
        Err(_) => Err(Stop::Memory),
    }
}
