//! The links of a page as a reader sees them, to pages and to media.

ghost use Rattle.std.specs.Prelude.{◌≡◌, ◌++◌, option_copied, string_bytes, IfOk, OnOk, Some};
ghost use Rattle.doc_media.specs.Media.{beside_of};
ghost use Rattle.doc_media_links.specs.MediaLinks.{fragment_of, medium_href, shown_as_medium, shown_medium};
ghost use Rattle.doc_page_parts.specs.declared.linker.Shown.TheVariants.{Href};
ghost use Rattle.doc_resolve.specs.References.{reference};

use crate::leading::sees_medium;
use doc_media::media::Media;
use doc_page_encoding::encoding::{push_destination, push_encoded_path};
use doc_page_parts::failure::Memory;
use doc_page_parts::heap::{Heap, String};
use doc_page_parts::linker::{Linker, Shown};
use doc_page_parts::path::Path;
use doc_page_parts::sight::Sight;
use doc_page_parts::text::Text;
use doc_resolve::{LinkKind, Reference, SiteLinker, classify};
use doc_store_readers::reader::Reader;

/// Shows the links of one page to one reader, as `SiteLinker`, but for a link that leads to no page that the reader sees and to a
/// medium that they see: that has the medium's address.
#[derive(Drop)]
pub struct BesideLinker<'a, S> {
    page: &'a Path,
    sight: &'a S,
    media: &'a Option<Media>,
    reader: &'a Reader,
}

impl<'a, S: Sight> BesideLinker<'a, S> {
    /// Shows the links of the page at this path.
    pub fn new(page: &'a Path, sight: &'a S, media: &'a Option<Media>, reader: &'a Reader) -> Self
        ensures page { result.page.now ≡ page.entry.now }
        ensures sight { result.sight.now ≡ sight.entry.now }
        ensures media { result.media.now ≡ media.entry.now }
        ensures reader { result.reader.now ≡ reader.entry.now }
    {
        BesideLinker {
            page,
            sight,
            media,
            reader,
        }
    }
}

impl<'a, S: Sight> Linker for BesideLinker<'a, S> {
    ghost use Rattle.std.specs.Prelude.{Some};
    ghost use Rattle.doc_media.specs.Media.{beside_of};
    ghost use Rattle.doc_media_links.specs.MediaLinks.{shown_beside};

    ghost shown = { λ l dest. shown_beside (S.goals l.sight.now)
        (beside_of l.media.now (Some l.reader.now)) l.page.now dest };

    fn show(&self, heap: Heap, dest: &str) -> Result<Shown, Memory> {
        let how = SiteLinker::new(self.page, self.sight).show(heap, dest)?;
        let Some(media) = self.media else {
            return Ok(how);
        };
        if let Shown::Href(_) = how {
            return Ok(how);
        }
        let kind = classify(heap, self.page, dest)?;
        shown_as_medium(heap, media, self.reader, dest, &kind)
    }
}

/// A link that leads to no page, by what it leads to.
fn shown_as_medium(
    heap: Heap,
    media: &Media,
    reader: &Reader,
    dest: &str,
    kind: &LinkKind,
) -> Result<Shown, Memory>
    ensures { IfOk result (λ how. how
        ≡ shown_as_medium (beside_of (Some media.now) (Some reader.now)) dest.now kind.now) }
{
    let LinkKind::Page { path, anchor: _ } = kind else {
        return Ok(Shown::Missing);
    };
    if !sees_medium(media, reader, path) {
        return Ok(Shown::Missing);
    }
    medium_link(heap, path, dest)
}

/// A link to the medium at a path.
fn medium_link(heap: Heap, path: &Path, dest: &str) -> Result<Shown, Memory>
    ensures { IfOk result
        (λ how. how ≡ Href (medium_href path.now (reference dest.now).fragment)) }
{
    let mut out = String::new(heap);
    out.push_str("/page/")?;
    push_encoded_path(&mut out, path.text())?;
    push_fragment(heap, &mut out, Reference::parse(dest).fragment)?;
    Ok(Shown::Href(Text::new(out)))
}

/// Writes `#` and a fragment, where there is one that isn't empty.
fn push_fragment(heap: Heap, out: &mut String, fragment: Option<&str>) -> Result<(), Memory>
    ensures { OnOk result (string_bytes out.new
        ≡ string_bytes out.old ++ fragment_of (option_copied fragment.entry)) }
{
    let Some(text) = fragment else {
        return Ok(());
    };
    if text.is_empty() {
        return Ok(());
    }
    out.push_str("#")?;
    push_destination(heap, out, text)
}
