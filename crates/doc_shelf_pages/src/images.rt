//! The images of pages that are kept, as they are told behind the broken links of their pages.

use crate::KeptPages;
use doc_links_pages::answers::Broken;
use doc_links_seen::teller::Teller;
use doc_media::media::Media;
use doc_media_links::push_broken_images;
use doc_page_parts::failure::Memory;
use doc_page_parts::heap::{Heap, Vec};
use doc_page_parts::path::Path;
use doc_store::reader::Reader;

/// Tells of a page that is kept which of its images show nothing to a reader who sees these media. Where there are no media, or no page
/// that is kept has images, it looks for no page.
#[derive(Clone, Copy)]
pub struct ImageTeller<'a> {
    pub heap: Heap,
    pub kept: &'a KeptPages,
    pub media: &'a Option<Media>,
    pub reader: &'a Reader,
}

impl<'a> Teller for ImageTeller<'a> {
    ghost use Rattle.std.specs.Prelude.{Some};
    ghost use Rattle.std.specs.FinMap as map;
    ghost use Rattle.doc_media.specs.Media.{beside_of};
    ghost use Rattle.doc_shelf_pages.specs.Images.{told_images};

    ghost told = { λ t path stamp.
        told_images (beside_of t.media.now (Some t.reader.now)) path (map.get t.kept.now.renderings (path, stamp)) };

    fn push_told(&self, all: &mut Vec<Broken>, path: &Path, stamp: u64) -> Result<(), Memory> {
        if self.media.is_none() {
            return Ok(());
        }
        if !self.kept.may_have_images() {
            return Ok(());
        }
        let Some(page) = self.kept.get(path, stamp) else {
            return Ok(());
        };
        push_broken_images(self.heap, all, path, page.images(), self.media, self.reader)
    }
}
