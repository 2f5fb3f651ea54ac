//! The shelf.

ghost use Rattle.std.specs.Prelude.{◌≡◌, ◌+◌, not, IfOk, IfSome, None, Ok, OnErr, OnOk, Some, filter, length, option_copied, option_map, take};
ghost use Rattle.std.specs.FinMap as map;
ghost use Rattle.doc_http_replies.specs.Heads.{dressed_bytes};
ghost use Rattle.doc_http_replies.specs.Manners.{dress_of};
ghost use Rattle.doc_http_replies.specs.ReplyForms.{reply_of};
ghost use Rattle.doc_listings.specs.Listings.{contents_of_lines};
ghost use Rattle.doc_media.specs.Media.{beside_of};
ghost use Rattle.doc_page_parts.specs.Refusals.{Gives, IsAnswer};
ghost use Rattle.doc_page_parts.specs.Pages.{filled};
ghost use Rattle.doc_people.specs.Folders.{keys};
ghost use Rattle.doc_people.specs.Hits.{hits};
ghost use Rattle.doc_people.specs.KeptPaths.{is_kept};
ghost use Rattle.doc_people.specs.Lists.{contents_from, sources_from};
ghost use Rattle.doc_people.specs.Navigation.{is_before, last_ones};
ghost use Rattle.doc_people.specs.Pages.{page_body};
ghost use Rattle.doc_people.specs.Sources.{broken_links};
ghost use Rattle.doc_people.specs.Views.{rendered_at, rendered_pages, sees};
ghost use Rattle.doc_media_links.specs.MediaLinks.{shown_beside};
ghost use Rattle.doc_shelf.specs.Shelves.{rendered_for, shelf_made};
ghost use Rattle.doc_shelf_documents.specs.Documents.{page_shown};
ghost use Rattle.doc_shelf_pages.specs.RenderingSteps.{texts_of};
ghost use Rattle.doc_shelf_pages.specs.ViewLaws.{seen_in};
ghost use Rattle.doc_shelf_pages.specs.Views.{backlinks_body, contents_body, report_body, search_body};
ghost use Rattle.doc_store_readers.specs.Sites.{goal_in, page_at};
ghost use Rattle.doc_store.specs.Store.{fits_in, moved_in, put_into, with_page, without_page};

use crate::in_step::{end_put_in_step, end_put_saying_in_step, remove_in_step};
use crate::moving::move_in_step;
use crate::people_rows::PeopleRows;
use crate::reader_view::ReaderView;
use doc_cache::cache::PageCache;
use doc_cache::failure::CacheError;
use doc_http::manner::Manner;
use doc_http::reply_form::ReplyForm;
use doc_links_pages::answers::Broken;
use doc_media::media::Media;
use doc_page::renderer::Renderer;
use doc_page_parts::bytes::Bytes;
use doc_page_parts::failure::Memory;
use doc_page_parts::heap::{Heap, Vec};
use doc_page_parts::list::List;
use doc_page_parts::path::Path;
use doc_page_parts::rendered::{Heading, Rendered};
use doc_page_parts::sight::Sight;
use doc_page_parts::text::Text;
use doc_people::settings::{Browse, Offers};
use doc_people::term::Term;
use doc_people::viewed::Found;
use doc_people_pages::page_body;
use doc_people_shell::frame::Frame;
use doc_rows_folders::{keys_before, keys_from};
use doc_shelf_bodies::Bodies;
use doc_shelf_documents::{Writing, reply_with_page};
use doc_shelf_hits::hits::hits;
use doc_shelf_pages::KeptPages;
use doc_shelf_pages::edits::{
    NewPage, begin_put, next_stamp, put_over, stamp_of_move, stamp_of_put,
};
use doc_shelf_pages::lists::{backlinks, contents, report, search};
use doc_shelf_pages::visible::visible_page;
use doc_shelf_views::{links, pages};
use doc_store::groups::Groups;
use doc_store::moving::MoveError;
use doc_store::reader::Reader;
use doc_store::store::{EditError, Put, Store};
use doc_words::word::Word;
use std::marker::Model;

/// The form of a reply, and how it is written.
#[derive(Clone, Copy)]
pub struct Saying<'a> {
    pub form: &'a ReplyForm,
    pub manner: Manner<'a>,
}

/// The pages of a server, ready to be served. Contracts see the renderer and the store.
///
/// A call that is refused leaves the store as it was. Documents and pages for people that were made for readers are kept, and nothing that
/// a call answers depends on which. A shelf keeps the heap that it was made with.
pub struct Shelf<R: Renderer + Drop> {
    heap: Heap,
    renderer: R,
    store: Store,
    kept: KeptPages,
    rows: PeopleRows,
    cache: PageCache,
    bodies: Bodies,
}

/// Written out, so that it is proved here once: what a derived drop does is proved wherever a value is let go.
impl<R: Renderer + Drop> Drop for Shelf<R> {
    fn drop(self) {
        let Shelf {
            heap: _,
            renderer: _,
            store: _,
            kept: _,
            rows: _,
            cache: _,
            bodies: _,
        } = self;
    }
}

impl<R: Renderer + Drop> Model for Shelf<R> {
    ghost use Rattle.std.specs.Coded.{coded×};
    ghost use Rattle.doc_shelf.specs.Shelves.{IsWhole};
    ghost use Rattle.doc_store.specs.Store.{StoreState, store_code};

    ghost Value = { R × StoreState };

    ghost coded = { coded× R.code store_code };

    ghost view = { λ s. (s.renderer, s.store) };

    ghost invariant = { λ s. IsWhole (R.page s.renderer) s.store s.kept s.cache s.rows s.bodies };
}

impl<R: Renderer + Drop> Shelf<R> {
    /// A shelf without pages, whose cache has room for so many documents, 1 to 4,096, and which keeps as many pages for people.
    /// `for_people` says whether the pages for people are served of it: then the texts of pages are kept too, and the rows of the pages.
    pub fn new(
        heap: Heap,
        renderer: R,
        capacity: usize,
        for_people: bool,
    ) -> Result<Self, CacheError>
        ensures { IsAnswer CacheError.Memory (shelf_made renderer capacity) result }
    {
        let cache = PageCache::new(heap, capacity)?;
        Ok(Shelf {
            heap,
            renderer,
            store: Store::new(heap),
            kept: KeptPages::new(heap, for_people),
            rows: PeopleRows::new(heap),
            cache,
            bodies: Bodies::new(heap, capacity),
        })
    }

    /// The pages as they stand.
    pub fn store(&self) -> &Store
        ensures { result.now ≡ self.now.1 }
    {
        &self.store
    }

    /// What a reader sees of the pages and of the media, for the pages for people.
    pub fn view<'a>(&'a self, reader: &'a Reader, media: &'a Option<Media>) -> ReaderView<'a, R>
        ensures { result
            ≡ record { shelf = self.entry; reader = reader.entry; media = media.entry } }
    {
        ReaderView {
            shelf: self,
            reader,
            media,
        }
    }

    /// Keeps the page for people that shows a reader the page at a path, where they see one, unless it is kept or has a link to a medium
    /// that they see. Where memory is refused it isn't kept. Each edit drops all of these.
    pub fn keep_body(
        &mut self,
        frame: Frame<'_>,
        path: &Path,
        reader: &Reader,
        media: &Option<Media>,
    )
        ensures same { self.new ≡ self.old }
    {
        if pages::leads_to_media(&self.store, &self.kept, path, reader, media)
            || self
                .body_among_pages(frame.browse, frame.offers, path, reader)
                .is_some()
        {
            return;
        }
        let Ok(Some(body)) = page_body(frame, &self.view(reader, &None), path) else {
            return;
        };
        self.bodies
            .keep(frame.browse, frame.offers, path, reader, body);
    }

    /// Puts a page, as `Store::put`. Its text is rendered once where the put fits, and not at all where it doesn't.
    pub fn put(&mut self, path: &Path, groups: &Groups, text: &str) -> Result<Put, EditError>
        ensures store { Gives EditError.Memory
            (put_into self.old.1 path.now groups.now text.now) self.old.1 self.new.1 result }
        ensures same { R.page self.new.0 ≡ R.page self.old.0 }
        ensures counted { R.count self.new.0
            ≡ R.count self.old.0 + rendered_for (fits_in self.old.1 path.now text.now) }
    {
        let stamp = stamp_of_put(&self.store, path, text)?;
        begin_put(
            self.heap,
            &mut self.renderer,
            &mut self.kept,
            path,
            stamp,
            text,
        )?;
        let page = NewPage {
            groups,
            text,
            stamp,
        };
        self.bodies.clear();
        Ok(put_over(end_put_in_step(
            self.heap,
            &mut self.store,
            &mut self.kept,
            &mut self.rows,
            path,
            page,
        )?))
    }

    /// Puts a page that fits, and answers the bytes of a reply. These are written before the page is put, since a put could not be
    /// taken back where the reply then found no memory.
    pub fn put_saying(
        &mut self,
        path: &Path,
        groups: &Groups,
        text: &str,
        saying: Saying,
    ) -> Result<Bytes, Memory>
        requires fits { fits_in self.old.1 path.now text.now ≡ Ok tt }
        ensures reply { IfOk result (λ bytes. bytes ≡ dressed_bytes (dress_of saying.entry.manner)
            (reply_of saying.entry.form.now) saying.entry.manner.head_only
            saying.entry.manner.close) }
        ensures put { OnOk result (self.new.1 ≡ with_page self.old.1 path.now
            (record { groups = groups.now; text = text.now })) }
        ensures refused { OnErr result (self.new.1 ≡ self.old.1) }
        ensures same { R.page self.new.0 ≡ R.page self.old.0 }
        ensures counted { R.count self.new.0 ≡ R.count self.old.0 + 1 }
    {
        let Some(stamp) = next_stamp(&self.store) else {
            return Err(Memory);
        };
        begin_put(
            self.heap,
            &mut self.renderer,
            &mut self.kept,
            path,
            stamp,
            text,
        )?;
        let said = saying.form.write(self.heap, saying.manner);
        let page = NewPage {
            groups,
            text,
            stamp,
        };
        self.bodies.clear();
        end_put_saying_in_step(
            self.heap,
            &mut self.store,
            &mut self.kept,
            &mut self.rows,
            path,
            page,
            said,
        )
    }

    /// Removes the page of a path, as `Store::remove`, with what is kept of it. It takes no memory.
    pub fn remove(&mut self, path: &Path) -> bool
        ensures answer { result ≡ map.contains_key self.old.1.site.pages path.now }
        ensures store { self.new.1 ≡ without_page self.old.1 path.now }
        ensures same { self.new.0 ≡ self.old.0 }
    {
        self.bodies.clear();
        remove_in_step(&mut self.store, &mut self.kept, &mut self.rows, path)
    }

    /// Moves a page, as `Store::move_page`. What is kept of it is carried over, and nothing is rendered.
    pub fn move_page(&mut self, from: &Path, to: &Path) -> Result<(), MoveError>
        ensures store { Gives MoveError.Memory
            (moved_in self.old.1 from.now to.now) self.old.1 self.new.1 result }
        ensures same { self.new.0 ≡ self.old.0 }
    {
        let stamp = stamp_of_move(&self.store, from, to)?;
        self.bodies.clear();
        move_in_step(
            self.heap,
            &mut self.store,
            &mut self.kept,
            &mut self.rows,
            from,
            to,
            stamp,
        )
    }

    /// What the renderer makes of a text, which is kept nowhere: for a preview.
    pub fn render(&mut self, text: &str) -> Result<Rendered, Memory>
        ensures page { IfOk result (λ rendered. rendered ≡ R.page self.old.0 text.now) }
        ensures store { self.new.1 ≡ self.old.1 }
        ensures same { R.page self.new.0 ≡ R.page self.old.0 }
        ensures counted { R.count self.new.0 ≡ R.count self.old.0 + 1 }
    {
        self.renderer.render(self.heap, text)
    }

    /// The reply that shows a reader the page at a path, where they see one, beside the media that they see. It renders nothing. A document
    /// that was made for a reader for whom the page's links lead to the same pages and media is taken as it is, but for one with a link
    /// that names a place in a medium.
    pub fn page(
        &mut self,
        path: &Path,
        reader: &Reader,
        media: &Option<Media>,
        manner: Manner,
    ) -> Result<Option<Bytes>, Memory>
        ensures reply { IfOk result (λ reply. reply ≡ page_shown (R.page self.old.0)
            (seen_in self.old.1 reader.now) (beside_of media.now (Some reader.now)) path.now
            (dress_of manner.entry) manner.entry.head_only manner.entry.close) }
        ensures same { self.new ≡ self.old }
    {
        let Some(page) = visible_page(&self.store, reader, path) else {
            return Ok(None);
        };
        let stamp = page.stamp();
        let writing = Writing {
            heap: self.heap,
            manner,
        };
        let sight = self.store.sight(reader);
        reply_with_page(
            writing,
            &self.kept,
            &mut self.cache,
            path,
            stamp,
            &sight,
            media,
            reader,
        )
    }

    /// The lines of the pages that a reader sees, each with its headings: what the page of contents is made of.
    pub fn contents(&self, reader: &Reader) -> Result<Vec<&Text>, Memory>
        ensures { IfOk result (λ lines. contents_of_lines (texts_of lines.items)
            ≡ contents_body (R.page self.now.0) (seen_in self.now.1 reader.now)) }
    {
        contents(self.heap, &self.store, &self.kept, reader)
    }

    /// The lines of a page's backlinks for a reader, where they see a page at the path.
    pub fn backlinks(&self, path: &Path, reader: &Reader) -> Result<Option<Text>, Memory>
        ensures { IfOk result (λ text. text ≡ option_map
            (λ page. backlinks_body (R.page self.now.0) (seen_in self.now.1 reader.now) path.now)
            (page_at (seen_in self.now.1 reader.now).pages path.now)) }
    {
        let Some(_) = visible_page(&self.store, reader, path) else {
            return Ok(None);
        };
        Ok(Some(backlinks(self.heap, &self.store, &self.kept, path, reader)?))
    }

    /// The lines of what a search for these words finds for a reader.
    pub fn search(&self, words: &[Word], reader: &Reader) -> Result<Text, Memory>
        ensures { IfOk result (λ text. text
            ≡ search_body (R.page self.now.0) (seen_in self.now.1 reader.now) words.now) }
    {
        search(self.heap, &self.store, &self.kept, words, reader)
    }

    /// The lines of the links that are broken for a reader, beside the media that they see.
    pub fn report(&self, reader: &Reader, media: &Option<Media>) -> Result<Text, Memory>
        ensures { IfOk result (λ text. text
            ≡ report_body (R.page self.now.0) (seen_in self.now.1 reader.now)
            (beside_of media.now (Some reader.now))) }
    {
        report(self.heap, &self.store, &self.kept, media, reader)
    }

    /// The page for people that shows a reader the page at a path, as it was made for these settings and offers, where it is kept. One with
    /// a link to a medium that they see never is.
    pub(crate) fn kept_body(
        &self,
        browse: &Browse,
        offers: Offers,
        path: &Path,
        reader: &Reader,
        media: &Option<Media>,
    ) -> Option<&Text>
        ensures { IfSome result (λ text. option_map
            (page_body (R.page self.now.0) browse.now offers
            (seen_in self.now.1 reader.now) (beside_of media.now (Some reader.now)) path.now)
            (rendered_at (R.page self.now.0) (seen_in self.now.1 reader.now) path.now)
            ≡ Some text.now) }
    {
        if pages::leads_to_media(&self.store, &self.kept, path, reader, media) {
            return None;
        }
        self.body_among_pages(browse, offers, path, reader)
    }

    /// The same of a page none of whose links leads to a medium.
    fn body_among_pages(
        &self,
        browse: &Browse,
        offers: Offers,
        path: &Path,
        reader: &Reader,
    ) -> Option<&Text>
        ensures { IfSome result (λ text. option_map
            (page_body (R.page self.now.0) browse.now offers
            (seen_in self.now.1 reader.now) None path.now)
            (rendered_at (R.page self.now.0) (seen_in self.now.1 reader.now) path.now)
            ≡ Some text.now) }
    {
        self.bodies.find(browse, offers, path, reader)
    }

    /// Whether a reader sees a page at a path.
    pub(crate) fn sees(&self, path: &str, reader: &Reader) -> Result<bool, Memory>
        ensures { IfOk result (λ seen. seen ≡ sees (seen_in self.now.1 reader.now) path.now) }
    {
        pages::sees(self.heap, &self.store, path, reader)
    }

    /// The path of the page that a path leads to for a reader.
    pub(crate) fn goal(&self, path: &Path, reader: &Reader) -> Result<Option<Path>, Memory>
        ensures { IfOk result (λ goal. goal ≡ goal_in (seen_in self.now.1 reader.now) path.now) }
    {
        let view = self.store.sight(reader);
        let Some(goal) = view.goal(path) else {
            return Ok(None);
        };
        Ok(Some(goal.copy(self.heap)?))
    }

    /// The headings of the page at a path, where a reader sees one there.
    pub(crate) fn headings(&self, path: &str, reader: &Reader) -> Result<Option<&[Heading]>, Memory>
        ensures { IfOk result (λ headings. option_copied headings ≡ option_map
            (λ page. page.headings)
            (rendered_at (R.page self.now.0) (seen_in self.now.1 reader.now) path.now)) }
    {
        pages::headings(self.heap, &self.store, &self.kept, path, reader)
    }

    /// Whether a path is kept for media, as a reader sees pages and media.
    pub(crate) fn is_kept(&self, path: &Path, reader: &Reader, media: &Option<Media>) -> bool
        ensures { result ≡ is_kept (seen_in self.now.1 reader.now)
            (beside_of media.now (Some reader.now)) path.now }
    {
        pages::is_kept(&self.store, path, reader, media)
    }

    /// The HTML of the page at a path, where a reader sees one there.
    pub(crate) fn html(
        &self,
        path: &Path,
        reader: &Reader,
        media: &Option<Media>,
    ) -> Result<Option<Text>, Memory>
        ensures { IfOk result (λ html. html ≡ option_map
            (filled (shown_beside (goal_in (seen_in self.now.1 reader.now))
            (beside_of media.now (Some reader.now)) path.now))
            (rendered_at (R.page self.now.0) (seen_in self.now.1 reader.now) path.now)) }
    {
        pages::html(self.heap, &self.store, &self.kept, path, reader, media)
    }

    /// The texts of the page at a path, where a reader sees one there. Of a shelf that isn't for people no texts are kept, and it answers
    /// `Memory`; the pages for people are asked of a shelf for people alone.
    pub(crate) fn texts(&self, path: &Path, reader: &Reader) -> Result<Option<&[Text]>, Memory>
        ensures { IfOk result (λ texts. option_copied texts ≡ option_map (λ page. page.texts)
            (rendered_at (R.page self.now.0) (seen_in self.now.1 reader.now) path.now)) }
    {
        if !self.kept.keeps_texts() {
            return Err(Memory);
        }
        Ok(pages::texts(&self.store, &self.kept, path, reader))
    }

    /// What stands in a folder for a reader, from a text on: the first so many. Of a shelf that isn't for people no rows are kept, and it
    /// answers `Memory`, as `texts` does.
    pub(crate) fn keys_from(
        &self,
        reader: &Reader,
        folder: &str,
        from: &str,
        most: usize,
    ) -> Result<List<Text>, Memory>
        ensures { IfOk result (λ found. found ≡ take most
            (contents_from (seen_in self.now.1 reader.now) folder.now from.now)) }
    {
        if !self.kept.keeps_texts() {
            return Err(Memory);
        }
        keys_from(self.heap, &self.rows.by_group, reader, folder, from, most)
    }

    /// What stands in a folder for a reader and comes before a text: the last so many. Of a shelf that isn't for people it answers
    /// `Memory`.
    pub(crate) fn keys_before(
        &self,
        reader: &Reader,
        folder: &str,
        before: &str,
        most: usize,
    ) -> Result<List<Text>, Memory>
        ensures { IfOk result (λ found. found ≡ last_ones most
            (filter (λ key. is_before key before.now)
            (keys (seen_in self.now.1 reader.now) folder.now))) }
    {
        if !self.kept.keeps_texts() {
            return Err(Memory);
        }
        keys_before(self.heap, &self.rows.by_group, reader, folder, before, most)
    }

    /// The other pages that link to a page that a reader sees. Of a shelf that isn't for people it answers `Memory`.
    pub(crate) fn sources_from(
        &self,
        path: &Path,
        reader: &Reader,
        from: &str,
        most: usize,
    ) -> Result<List<(Path, u64)>, Memory>
        ensures { IfOk result (λ found. found ≡ take most
            (sources_from (R.page self.now.0) (seen_in self.now.1 reader.now) path.now from.now)) }
    {
        if !self.kept.keeps_texts() {
            return Err(Memory);
        }
        links::sources_from(
            self.heap,
            &self.store,
            &self.kept,
            &self.rows.by_link,
            path,
            reader,
            from,
            most,
        )
    }

    /// The links that are broken for a reader. Of a shelf that isn't for people it answers `Memory`.
    pub(crate) fn broken_from(
        &self,
        reader: &Reader,
        media: &Option<Media>,
        from: &str,
    ) -> Result<List<Broken>, Memory>
        ensures { IfOk result (λ found. found
            ≡ filter (λ link. not (is_before link.source from.now))
            (broken_links (R.page self.now.0) (seen_in self.now.1 reader.now)
            (beside_of media.now (Some reader.now)))) }
    {
        if !self.kept.keeps_texts() {
            return Err(Memory);
        }
        let rows = &self.rows.by_group;
        links::broken_from(
            self.heap,
            &self.store,
            &self.kept,
            rows,
            reader,
            media,
            from,
        )
    }

    /// What these terms find for a reader, and of that the first so many. Of a shelf that isn't for people it answers `Memory`.
    pub(crate) fn hits(&self, reader: &Reader, terms: &[Term], most: usize) -> Result<Found, Memory>
        ensures count { IfOk result (λ found. found.count ≡ length (hits (rendered_pages
            (R.page self.now.0) (seen_in self.now.1 reader.now)) terms.now)) }
        ensures best { IfOk result (λ found. found.best ≡ take most (hits (rendered_pages
            (R.page self.now.0) (seen_in self.now.1 reader.now)) terms.now)) }
    {
        if !self.kept.keeps_texts() {
            return Err(Memory);
        }
        let rows = &self.rows.by_group;
        hits(
            self.heap,
            &self.store,
            &self.kept,
            rows,
            reader,
            terms,
            most,
        )
    }
}
