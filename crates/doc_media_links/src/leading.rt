//! Whether links lead to media that a reader sees.

ghost use Rattle.std.specs.Prelude.{◌≡◌, is_some, Some};
ghost use Rattle.doc_media.specs.Media.{beside_of};
ghost use Rattle.doc_media_links.specs.MediaLinks.{any_leads, any_names, lead_to_media, leads_to_medium, sees_medium};
ghost use Rattle.doc_media_links.specs.MediaLinks.{name_places, names_place};

use doc_media::media::Media;
use doc_page_parts::path::Path;
use doc_resolve::LinkKind;
use doc_store_readers::reader::Reader;

/// Whether one of these links leads to a medium that the reader sees. It takes no memory.
pub fn lead_to_media(links: &[LinkKind], media: &Option<Media>, reader: &Reader) -> bool
    ensures { result ≡ lead_to_media (beside_of media.now (Some reader.now)) links.now }
{
    let Some(media) = media else {
        return false;
    };
    any_leads(links, media, reader)
}

/// The same where there are media.
fn any_leads(links: &[LinkKind], media: &Media, reader: &Reader) -> bool
    ensures { result ≡ any_leads (beside_of (Some media.now) (Some reader.now)) links.now }
{
    links
        .iter()
        .any(|link| leads_to_medium(link, media, reader))
}

/// Whether a link leads to a medium that the reader sees.
fn leads_to_medium(link: &LinkKind, media: &Media, reader: &Reader) -> bool
    ensures { result ≡ leads_to_medium (beside_of (Some media.now) (Some reader.now)) link.now }
{
    let LinkKind::Page { path, anchor: _ } = link else {
        return false;
    };
    sees_medium(media, reader, path)
}

/// Whether one of these links leads to a medium that the reader sees, and names a place in it. It takes no memory.
pub fn name_places(links: &[LinkKind], media: &Option<Media>, reader: &Reader) -> bool
    ensures { result ≡ name_places (beside_of media.now (Some reader.now)) links.now }
{
    let Some(media) = media else {
        return false;
    };
    any_names(links, media, reader)
}

/// The same where there are media.
fn any_names(links: &[LinkKind], media: &Media, reader: &Reader) -> bool
    ensures { result ≡ any_names (beside_of (Some media.now) (Some reader.now)) links.now }
{
    links.iter().any(|link| names_place(link, media, reader))
}

/// Whether a link leads to a medium that the reader sees, and names a place in it.
fn names_place(link: &LinkKind, media: &Media, reader: &Reader) -> bool
    ensures { result ≡ names_place (beside_of (Some media.now) (Some reader.now)) link.now }
{
    match link {
        LinkKind::Page {
            path,
            anchor: Some(_),
        } => sees_medium(media, reader, path),
        LinkKind::Page { anchor: None, .. } | LinkKind::External | LinkKind::Nowhere => false,
    }
}

/// Whether a medium that the reader sees stands under a path.
pub(crate) fn sees_medium(media: &Media, reader: &Reader, path: &Path) -> bool
    ensures { result ≡ sees_medium (beside_of (Some media.now) (Some reader.now)) path.now }
{
    media.seen(reader, path).is_some()
}
