//! What one reader sees of a shelf.

ghost use Rattle.std.specs.Prelude.{◌≡◌, not, Some, IfOk, filter, length, option_copied, option_map, take};
ghost use Rattle.doc_page_parts.specs.Pages.{filled};
ghost use Rattle.doc_media.specs.Media.{beside_of};
ghost use Rattle.doc_media_links.specs.MediaLinks.{shown_beside};
ghost use Rattle.doc_store_readers.specs.Sites.{goal_in, page_at};
ghost use Rattle.doc_shelf_pages.specs.ViewLaws.{seen_in};

use crate::shelf::Shelf;
use doc_links_pages::answers::Broken;
use doc_media::media::Media;
use doc_page::renderer::Renderer;
use doc_page_parts::failure::Memory;
use doc_page_parts::list::List;
use doc_page_parts::path::Path;
use doc_page_parts::rendered::Heading;
use doc_page_parts::text::Text;
use doc_people::settings::{Browse, Offers};
use doc_people::term::Term;
use doc_people::viewed::{Found, Viewed};
use doc_store::reader::Reader;

/// What one reader sees of a shelf, beside the media of its site.
#[derive(Clone, Copy)]
pub struct ReaderView<'a, R: Renderer + Drop> {
    pub(crate) shelf: &'a Shelf<R>,
    pub(crate) reader: &'a Reader,
    pub(crate) media: &'a Option<Media>,
}

impl<R: Renderer + Drop> Viewed for ReaderView<'_, R> {
    ghost view = { λ v. seen_in v.shelf.now.1 v.reader.now };

    ghost render = { λ v. R.page v.shelf.now.0 };

    ghost media = { λ v. beside_of v.media.now (Some v.reader.now) };

    fn sees(&self, path: &str) -> Result<bool, Memory> {
        self.shelf.sees(path, self.reader)
    }

    fn goal(&self, path: &Path) -> Result<Option<Path>, Memory> {
        self.shelf.goal(path, self.reader)
    }

    fn headings(&self, path: &str) -> Result<Option<&[Heading]>, Memory> {
        self.shelf.headings(path, self.reader)
    }

    fn is_kept(&self, path: &Path) -> bool {
        self.shelf.is_kept(path, self.reader, self.media)
    }

    fn html(&self, path: &Path) -> Result<Option<Text>, Memory> {
        self.shelf.html(path, self.reader, self.media)
    }

    fn texts(&self, path: &Path) -> Result<Option<&[Text]>, Memory> {
        self.shelf.texts(path, self.reader)
    }

    fn keys_from(&self, folder: &str, from: &str, most: usize) -> Result<List<Text>, Memory> {
        self.shelf.keys_from(self.reader, folder, from, most)
    }

    fn keys_before(&self, folder: &str, before: &str, most: usize) -> Result<List<Text>, Memory> {
        self.shelf.keys_before(self.reader, folder, before, most)
    }

    fn sources_from(
        &self,
        path: &Path,
        from: &str,
        most: usize,
    ) -> Result<List<(Path, u64)>, Memory> {
        self.shelf.sources_from(path, self.reader, from, most)
    }

    fn broken_from(&self, from: &str) -> Result<List<Broken>, Memory> {
        self.shelf.broken_from(self.reader, self.media, from)
    }

    fn hits(&self, terms: &[Term], most: usize) -> Result<Found, Memory> {
        self.shelf.hits(self.reader, terms, most)
    }

    fn kept_body(&self, browse: &Browse, offers: Offers, path: &Path) -> Option<&Text> {
        self.shelf
            .kept_body(browse, offers, path, self.reader, self.media)
    }
}
