//! What a reader sees of a site, as the pages for people ask for it.

ghost use Rattle.std.specs.Prelude.{◌≡◌, not, Some, IfOk, IfSome, filter, length, option_copied, option_map, take};
ghost use Rattle.doc_page_parts.specs.Pages.{filled};
ghost use Rattle.doc_media.specs.Media.{Beside};
ghost use Rattle.doc_media_links.specs.MediaLinks.{shown_beside};
ghost use Rattle.doc_store_readers.specs.Pages.{Page};
ghost use Rattle.doc_store_readers.specs.Sites.{View, goal_in, page_at};
ghost use Rattle.doc_people.specs.Folders.{keys};
ghost use Rattle.doc_people.specs.Hits.{hits};
ghost use Rattle.doc_people.specs.KeptPaths.{is_kept};
ghost use Rattle.doc_people.specs.Lists.{contents_from, sources_from};
ghost use Rattle.doc_people.specs.Navigation.{is_before, last_ones};
ghost use Rattle.doc_people.specs.Pages.{page_body};
ghost use Rattle.doc_people.specs.Sources.{broken_links};
ghost use Rattle.doc_people.specs.Views.{Renders, rendered_at, rendered_pages, sees};

use crate::settings::{Browse, Offers};
use crate::term::Term;
use doc_links_pages::answers::Broken;
use doc_page_parts::failure::Memory;
use doc_page_parts::list::List;
use doc_page_parts::path::Path;
use doc_page_parts::rendered::Heading;
use doc_page_parts::text::Text;
use doc_words_search::hit::Hit;

/// What a search found.
#[derive(Drop)]
pub struct Found {
    /// How many pages.
    pub count: u64,
    /// The first of them.
    pub best: List<Hit>,
}

/// What a reader sees of a site, asked part by part. Contracts see the reader's view, what a renderer makes of each text, and the media
/// that the reader sees: each answer is of these alone.
pub trait Viewed {
    ghost view: { Self → View };

    ghost render: { Self → Renders };

    ghost media: { Self → Beside };

    /// Whether a page is seen at a path. A text that is no path has none.
    fn sees(&self, path: &str) -> Result<bool, Memory>
        ensures { IfOk result (λ seen. seen ≡ sees (view self.now) path.now) };

    /// The path of the page that a path leads to, where one is seen there.
    fn goal(&self, path: &Path) -> Result<Option<Path>, Memory>
        ensures { IfOk result (λ goal. goal ≡ goal_in (view self.now) path.now) };

    /// The headings of the page at a path, where one is seen there.
    fn headings(&self, path: &str) -> Result<Option<&[Heading]>, Memory>
        ensures { IfOk result (λ headings. option_copied headings ≡ option_map
            (λ page. page.headings) (rendered_at (render self.now) (view self.now) path.now)) };

    /// Whether a path is kept for media: no page begins there.
    fn is_kept(&self, path: &Path) -> bool
        ensures { result ≡ is_kept (view self.now) (media self.now) path.now };

    /// The HTML of the page at a path, where one is seen there, with its links as the reader sees them.
    fn html(&self, path: &Path) -> Result<Option<Text>, Memory>
        ensures { IfOk result (λ html. html ≡ option_map
            (filled (shown_beside (goal_in (view self.now)) (media self.now) path.now))
            (rendered_at (render self.now) (view self.now) path.now)) };

    /// The plain texts of the blocks of the page at a path, where one is seen there.
    fn texts(&self, path: &Path) -> Result<Option<&[Text]>, Memory>
        ensures { IfOk result (λ texts. option_copied texts ≡ option_map
            (λ page. page.texts) (rendered_at (render self.now) (view self.now) path.now)) };

    /// What stands in a folder, pages and folders, from a text on, in order: the first so many.
    fn keys_from(&self, folder: &str, from: &str, most: usize) -> Result<List<Text>, Memory>
        ensures { IfOk result (λ found.
            found ≡ take most (contents_from (view self.now) folder.now from.now)) };

    /// What stands in a folder and comes before a text, in order: the last so many.
    fn keys_before(&self, folder: &str, before: &str, most: usize) -> Result<List<Text>, Memory>
        ensures { IfOk result (λ found. found ≡ last_ones most
            (filter (λ key. is_before key before.now) (keys (view self.now) folder.now))) };

    /// The other pages that link to a page that is seen, from a text on, in order, each with the number of its links: the first so many.
    fn sources_from(
        &self,
        path: &Path,
        from: &str,
        most: usize,
    ) -> Result<List<(Path, u64)>, Memory>
        ensures { (page : Page) → page_at (view self.now).pages path.now ≡ Some page
            → IfOk result (λ found. found ≡ take most
            (sources_from (render self.now) (view self.now) path.now from.now)) };

    /// The broken links of the pages from a text on, page by page, and behind those of each page its images that show nothing.
    fn broken_from(&self, from: &str) -> Result<List<Broken>, Memory>
        ensures { IfOk result (λ found. found ≡ filter
            (λ link. not (is_before link.source from.now))
            (broken_links (render self.now) (view self.now) (media self.now))) };

    /// What these terms find, and of that the first so many.
    fn hits(&self, terms: &[Term], most: usize) -> Result<Found, Memory>
        ensures count { IfOk result (λ found.
            found.count
            ≡ length (hits (rendered_pages (render self.now) (view self.now)) terms.now)) }
        ensures best { IfOk result (λ found. found.best
            ≡ take most (hits (rendered_pages (render self.now) (view self.now)) terms.now)) };

    /// The page for people that shows the page at a path, as it was made for these settings and offers, where it is kept.
    fn kept_body(&self, browse: &Browse, offers: Offers, path: &Path) -> Option<&Text>
        ensures { IfSome result (λ text. option_map
            (page_body (render self.now) browse.now offers (view self.now) (media self.now)
            path.now)
            (rendered_at (render self.now) (view self.now) path.now) ≡ Some text.now) };
}
