//! How requests are answered: each from what its reader may see.

ghost use Rattle.std.specs.Prelude.{◌≡◌, ◌&&◌, IfOk, Some, option_copied};
ghost use Rattle.doc_http.specs.Requests.{is_bare};
ghost use Rattle.doc_http_replies.specs.Heads.{undressed};
ghost use Rattle.doc_http_replies.specs.Manners.{dress_of};
ghost use Rattle.doc_http_targets.specs.Targets.{route_of, route_shown};
ghost use Rattle.doc_media.specs.Media.{beside_of};
ghost use Rattle.doc_store_readers.specs.Sites.{view_of};
ghost use Rattle.doc_hub_media.specs.AnswerSteps.{Answered, AnsweredSo, entry_of};
ghost use Rattle.doc_hub_media.specs.Counts.{RendersPuts, moves_of, previews_of};
ghost use Rattle.doc_hub_media.specs.Edits.{puts_taken};
ghost use Rattle.doc_hub_media.specs.Replies.{method_of, plain_answer, response_to};
ghost use Rattle.doc_hub_asking.specs.Asking.{is_guest, reader_asking, row_of};
ghost use Rattle.doc_hub_asking.specs.AskingSteps.{asking_shown};
ghost use Rattle.doc_hub_media.specs.PeopleAnswers.{on_route, people_reply};
ghost use Rattle.doc_hub_media.specs.VisitSteps.{offers_of, people_sent};
ghost use Rattle.doc_http_targets.specs.PeopleTargets.{people_route_of};
ghost use Rattle.doc_hub_editing_refusals.specs.AskedSteps.{edit_request_shown};
ghost use Rattle.doc_hub_media.specs.EditAnswers.{by_entry, is_preview};
ghost use Rattle.doc_hub_media.specs.EditAnswers as edit_answers;
ghost use Rattle.doc_hub_media.specs.EditResponses.{editing_answer};
ghost use Rattle.doc_hub_replies.specs.Answers.{answer_by, answer_of, asks_preview, browsed, dress_for, is_for_people, kept_from_guests, people_answer, shows_preview, style_answer, unedited};
ghost use Rattle.doc_hub_replies.specs.ServingSteps.{closes_after, edits_at, edits_page};
ghost use Rattle.doc_hub_replies.specs.TakingEdits.{answer_given};

use crate::asked::{asks_for_style, head_only, is_for_people};
use doc_http::bearer::bearer;
use doc_http::manner::Manner;
use doc_http::request::Request;
use doc_http::status::Status;
use doc_http::style_sheet::write_style_sheet;
use doc_http_targets::route::Route;
use doc_http_targets::routes::Routes;
use doc_hub_asking::asking::{Asking, who_asks};
use doc_hub_editing_refusals::edit_request::EditRequest;
use doc_hub_media::Shelf;
use doc_hub_media::answer::Answer;
use doc_hub_media::edit_request::edit_request;
use doc_hub_media::editing::Editing;
use doc_hub_media::exchange::Exchange;
use doc_hub_media::method::Method;
use doc_hub_media::people::{page_asked, people_answer};
use doc_hub_media::routes::at_route;
use doc_hub_media::visit::{Visit, realm_of, unauthorized};
use doc_media::media::Media;
use doc_page::renderer::Renderer;
use doc_page_parts::failure::Memory;
use doc_page_parts::heap::Heap;
use doc_people::settings::{Browse, Settings};
use doc_people::style_sheet::STYLE_SHEET;
use doc_store::reader::Reader;
use doc_store::readers::Readers;

/// What requests are answered by, beside the shelf.
#[derive(Clone, Copy)]
pub struct Serving<'a> {
    pub heap: Heap,
    pub routes: &'a Routes,
    pub readers: &'a Readers,
    pub settings: &'a Settings,
    /// The media that stand beside the pages, where the configuration asks for some.
    pub media: &'a Option<Media>,
    /// Whether puts are taken.
    pub takes_puts: bool,
}

impl Serving<'_> {
    /// The answer to a request, and the edit that it asks for, which is made. Where no edits are taken, whoever has an entry is
    /// refused the methods that edit; all else is answered as ever. Where memory runs out the pages are as they were.
    pub fn answer<R: Renderer + Drop>(
        &self,
        shelf: &mut Shelf<R>,
        request: &Request,
    ) -> Result<Answer, Memory>
        ensures answer { let asking = reader_asking self.now.settings.now.browse
            self.now.readers.now request.now in
            AnsweredSo request.now.body shelf.old.1
            (answer_given self.now.settings.now (R.page shelf.old.0)
            (view_of shelf.old.1.site (row_of asking))
            (beside_of self.now.media.now (row_of asking)) asking
            (puts_taken self.now.takes_puts shelf.old.1.puts) request.now) shelf.new.1 result }
        ensures same { R.page shelf.new.0 ≡ R.page shelf.old.0 }
        ensures counted { let asking = reader_asking self.now.settings.now.browse
            self.now.readers.now request.now in
            IfOk result (λ a. RendersPuts (R.count shelf.old.0) shelf.old.1.puts
            (R.count shelf.new.0) shelf.new.1.puts (moves_of a.edit)
            (previews_of (shows_preview self.now.settings.now.browse
            (view_of shelf.old.1.site (row_of asking))
            (beside_of self.now.media.now (row_of asking)) asking request.now))) }
    {
        match self.without_edits(request)? {
            Some(answer) => Ok(answer),
            None => self.with_edits(shelf, request),
        }
    }

    /// The same where edits are taken. Where media have no part in it, with settings for people the style sheet comes first, then
    /// who asks, then whether the request edits by these settings, then whether it is for people. Refused are, in this order,
    /// who has no entry, what has no route, and what the method refuses.
    fn with_edits<R: Renderer + Drop>(
        &self,
        shelf: &mut Shelf<R>,
        request: &Request,
    ) -> Result<Answer, Memory>
        ensures answer { let asking = reader_asking self.now.settings.now.browse
            self.now.readers.now request.now in
            AnsweredSo request.now.body shelf.old.1
            (answer_of self.now.settings.now (R.page shelf.old.0)
            (view_of shelf.old.1.site (row_of asking))
            (beside_of self.now.media.now (row_of asking)) asking
            (puts_taken self.now.takes_puts shelf.old.1.puts) request.now) shelf.new.1 result }
        ensures same { R.page shelf.new.0 ≡ R.page shelf.old.0 }
        ensures counted { let asking = reader_asking self.now.settings.now.browse
            self.now.readers.now request.now in
            IfOk result (λ a. RendersPuts (R.count shelf.old.0) shelf.old.1.puts
            (R.count shelf.new.0) shelf.new.1.puts (moves_of a.edit)
            (previews_of (shows_preview self.now.settings.now.browse
            (view_of shelf.old.1.site (row_of asking))
            (beside_of self.now.media.now (row_of asking)) asking request.now))) }
    {
        match self.by_media(shelf, request)? {
            Some(answer) => Ok(answer),
            None => self.by_pages(shelf, request),
        }
    }

    /// The answer to a request in which media have no part, but for the links to them.
    fn by_pages<R: Renderer + Drop>(
        &self,
        shelf: &mut Shelf<R>,
        request: &Request,
    ) -> Result<Answer, Memory>
        ensures answer { let asking = reader_asking self.now.settings.now.browse
            self.now.readers.now request.now in
            AnsweredSo request.now.body shelf.old.1
            (answer_by self.now.settings.now.browse (R.page shelf.old.0)
            (view_of shelf.old.1.site (row_of asking))
            (beside_of self.now.media.now (row_of asking)) asking
            (puts_taken self.now.takes_puts shelf.old.1.puts)
            (closes_after self.now.settings.now request.now) request.now) shelf.new.1 result }
        ensures same { R.page shelf.new.0 ≡ R.page shelf.old.0 }
        ensures counted { IfOk result (λ a. RendersPuts (R.count shelf.old.0) shelf.old.1.puts
            (R.count shelf.new.0) shelf.new.1.puts (moves_of a.edit)
            (previews_of (asks_preview self.now.settings.now.browse
            (reader_asking self.now.settings.now.browse self.now.readers.now request.now)
            request.now))) }
    {
        match &self.settings.browse {
            None => self.plain(shelf, request),
            Some(browse) => self.browsed(shelf, request, browse),
        }
    }

    /// The same without settings for people.
    fn plain<R: Renderer + Drop>(
        &self,
        shelf: &mut Shelf<R>,
        request: &Request,
    ) -> Result<Answer, Memory>
        ensures answer { let entry = entry_of self.now.readers.now request.now in
            AnsweredSo request.now.body shelf.old.1
            (plain_answer undressed (response_to (R.page shelf.old.0)
            (view_of shelf.old.1.site entry) (beside_of self.now.media.now entry) entry
            (puts_taken self.now.takes_puts shelf.old.1.puts) request.now)
            (closes_after self.now.settings.now request.now) request.now) shelf.new.1 result }
        ensures same { R.page shelf.new.0 ≡ R.page shelf.old.0 }
        ensures counted { IfOk result (λ a. RendersPuts (R.count shelf.old.0) shelf.old.1.puts
            (R.count shelf.new.0) shelf.new.1.puts (moves_of a.edit) 0) }
    {
        let manner = Manner::plain(head_only(request), self.closes_after(request));
        self.respond(
            &self.exchange(request, manner),
            shelf,
            self.reader_of(request),
        )
    }

    /// The same with them.
    fn browsed<R: Renderer + Drop>(
        &self,
        shelf: &mut Shelf<R>,
        request: &Request,
        browse: &Browse,
    ) -> Result<Answer, Memory>
        ensures answer { let asking = reader_asking (Some browse.now) self.now.readers.now
            request.now in AnsweredSo request.now.body shelf.old.1
            (browsed browse.now (R.page shelf.old.0) (view_of shelf.old.1.site (row_of asking))
            (beside_of self.now.media.now (row_of asking)) asking (puts_taken self.now.takes_puts shelf.old.1.puts)
            (closes_after self.now.settings.now request.now) request.now) shelf.new.1 result }
        ensures same { R.page shelf.new.0 ≡ R.page shelf.old.0 }
        ensures counted { IfOk result (λ a. RendersPuts (R.count shelf.old.0) shelf.old.1.puts
            (R.count shelf.new.0) shelf.new.1.puts (moves_of a.edit)
            (previews_of (is_preview browse.now (reader_asking (Some browse.now)
            self.now.readers.now request.now) request.now))) }
    {
        if asks_for_style(request) {
            return self.style(request);
        }
        let asking = who_asks(self.heap, browse, self.readers, request)?;
        let Some(asked) = edit_request(browse, self.routes, request) else {
            return self.unedited(shelf, request, browse, &asking);
        };
        match asking.row() {
            Some(row) => self.edited(shelf, request, browse, &asking, row, asked),
            None => self.unedited(shelf, request, browse, &asking),
        }
    }

    /// The answer to a request that edits, of a reader or a guest with this entry, and the edit that goes with it, which is made.
    fn edited<R: Renderer + Drop>(
        &self,
        shelf: &mut Shelf<R>,
        request: &Request,
        browse: &Browse,
        asking: &Asking,
        row: &Reader,
        asked: EditRequest<'_>,
    ) -> Result<Answer, Memory>
        ensures answer { AnsweredSo request.now.body shelf.old.1
            (editing_answer (dress_for browse.now (asking_shown asking.now))
            (by_entry (R.page shelf.old.0) browse.now (view_of shelf.old.1.site (Some row.now))
            (beside_of self.now.media.now (Some row.now)) (is_guest (asking_shown asking.now)) row.now
            (puts_taken self.now.takes_puts shelf.old.1.puts)
            (is_for_people request.now) request.now (edit_request_shown asked.entry))
            (closes_after self.now.settings.now request.now) request.now) shelf.new.1 result }
        ensures same { R.page shelf.new.0 ≡ R.page shelf.old.0 }
        ensures counted { IfOk result (λ a. RendersPuts (R.count shelf.old.0) shelf.old.1.puts
            (R.count shelf.new.0) shelf.new.1.puts (moves_of a.edit)
            (previews_of (edit_answers.shows_preview row.now.owner request.now
            (Some (edit_request_shown asked.entry))))) }
    {
        let exchange = self.exchange(request, self.manner(request, browse, asking));
        let editing = Editing {
            exchange: &exchange,
            browse,
            reader: row,
            media: self.media,
            guest: asking.is_guest(),
            for_people: is_for_people(request),
        };
        editing.answer(shelf, asked)
    }

    /// The answer to a request that doesn't edit by these settings.
    fn unedited<R: Renderer + Drop>(
        &self,
        shelf: &mut Shelf<R>,
        request: &Request,
        browse: &Browse,
        asking: &Asking,
    ) -> Result<Answer, Memory>
        requires { asking_shown asking.now
            ≡ reader_asking (Some browse.now) self.now.readers.now request.now }
        ensures answer { let asking = asking_shown asking.now in
            AnsweredSo request.now.body shelf.old.1 (unedited browse.now (R.page shelf.old.0)
            (view_of shelf.old.1.site (row_of asking))
            (beside_of self.now.media.now (row_of asking)) asking
            (puts_taken self.now.takes_puts shelf.old.1.puts)
            (closes_after self.now.settings.now request.now) request.now) shelf.new.1 result }
        ensures same { R.page shelf.new.0 ≡ R.page shelf.old.0 }
        ensures counted { IfOk result (λ a. RendersPuts (R.count shelf.old.0) shelf.old.1.puts
            (R.count shelf.new.0) shelf.new.1.puts (moves_of a.edit) 0) }
    {
        if is_for_people(request) {
            return self.people(shelf, request, browse, asking);
        }
        self.guarded(shelf, request, browse, asking)
    }

    /// The style sheet, whoever asks.
    fn style(&self, request: &Request) -> Result<Answer, Memory>
        ensures { IfOk result (λ a. a
            ≡ style_answer (closes_after self.now.settings.now request.now) request.now) }
    {
        let close = self.closes_after(request);
        let sheet = STYLE_SHEET.as_bytes();
        let bytes = write_style_sheet(self.heap, sheet, head_only(request), close)?;
        Ok(Answer {
            bytes,
            closes: close,
            edit: None,
        })
    }

    /// The answer to a request for people, which edits nothing.
    fn people<R: Renderer + Drop>(
        &self,
        shelf: &mut Shelf<R>,
        request: &Request,
        browse: &Browse,
        asking: &Asking,
    ) -> Result<Answer, Memory>
        ensures answer { IfOk result (λ a. a
            ≡ people_answer (people_reply (R.page shelf.old.0) browse.now
            (view_of shelf.old.1.site (row_of (asking_shown asking.now)))
            (beside_of self.now.media.now (row_of (asking_shown asking.now)))
            (asking_shown asking.now) request.now) (closes_after self.now.settings.now request.now) request.now) }
        ensures same { shelf.new ≡ shelf.old }
    {
        let manner = self.manner(request, browse, asking);
        let exchange = self.exchange(request, manner);
        let visit = Visit {
            exchange: &exchange,
            browse,
            guest: asking.is_guest(),
            owner: asking.owns(),
        };
        match asking.row() {
            None => unauthorized(&exchange, browse),
            Some(row) => self.shown(visit, shelf, row),
        }
    }

    /// The answer to a request for people of a reader, or of a guest, with this entry.
    fn shown<R: Renderer + Drop>(
        &self,
        visit: Visit<'_>,
        shelf: &mut Shelf<R>,
        row: &Reader,
    ) -> Result<Answer, Memory>
        ensures answer { IfOk result (λ a. a ≡ people_sent visit.entry.exchange.now (on_route
            (R.page shelf.old.0) visit.entry.browse.now (offers_of visit.entry)
            (view_of shelf.old.1.site (Some row.now))
            (beside_of self.now.media.now (Some row.now)) visit.entry.guest
            visit.entry.exchange.now.request.now.target
            (people_route_of visit.entry.exchange.now.request.now.target))) }
        ensures same { shelf.new ≡ shelf.old }
    {
        self.keep_page(visit, shelf, row);
        people_answer(visit, self.routes, &shelf.view(row, self.media))
    }

    /// Before a request for people is answered: the page that it asks for is made and kept, unless it is kept.
    fn keep_page<R: Renderer + Drop>(&self, visit: Visit<'_>, shelf: &mut Shelf<R>, row: &Reader)
        ensures { shelf.new ≡ shelf.old }
    {
        let Ok(Some(path)) = page_asked(visit, self.routes) else {
            return;
        };
        shelf.keep_body(visit.frame(), &path, row, self.media);
    }

    /// The answer to another request, where there are settings for people. A guest edits nothing: they are asked to sign in.
    fn guarded<R: Renderer + Drop>(
        &self,
        shelf: &mut Shelf<R>,
        request: &Request,
        browse: &Browse,
        asking: &Asking,
    ) -> Result<Answer, Memory>
        requires { asking_shown asking.now
            ≡ reader_asking (Some browse.now) self.now.readers.now request.now }
        ensures answer { let asking = asking_shown asking.now in
            AnsweredSo request.now.body shelf.old.1 (plain_answer (dress_for browse.now asking)
            (kept_from_guests (is_guest asking) (response_to (R.page shelf.old.0)
            (view_of shelf.old.1.site (row_of asking))
            (beside_of self.now.media.now (row_of asking)) (row_of asking)
            (puts_taken self.now.takes_puts shelf.old.1.puts) request.now))
            (closes_after self.now.settings.now request.now) request.now) shelf.new.1 result }
        ensures same { R.page shelf.new.0 ≡ R.page shelf.old.0 }
        ensures counted { IfOk result (λ a. RendersPuts (R.count shelf.old.0) shelf.old.1.puts
            (R.count shelf.new.0) shelf.new.1.puts (moves_of a.edit) 0) }
    {
        let exchange = self.exchange(request, self.manner(request, browse, asking));
        if self.is_kept(&exchange, asking) {
            exchange.status(Status::Unauthorized)
        } else {
            self.respond(&exchange, shelf, asking.row())
        }
    }

    /// Whether a guest asks for an edit of a page, which readers who own nothing are forbidden.
    fn is_kept(&self, exchange: &Exchange, asking: &Asking) -> bool
        ensures { result ≡ (is_guest (asking_shown asking.now)
            && edits_page exchange.now.method (route_of exchange.now.request.now.target)) }
    {
        asking.is_guest() && self.edits_page(exchange)
    }

    /// The answer to a request by the reader's entry, if they have one.
    fn respond<R: Renderer + Drop>(
        &self,
        exchange: &Exchange,
        shelf: &mut Shelf<R>,
        reader: Option<&Reader>,
    ) -> Result<Answer, Memory>
        requires { exchange.now.method ≡ method_of exchange.now.request.now.method }
        ensures answer { let entry = option_copied reader.entry in Answered exchange.now shelf.old.1
            (response_to (R.page shelf.old.0) (view_of shelf.old.1.site entry)
            (beside_of self.now.media.now entry) entry
            (puts_taken exchange.now.takes_puts shelf.old.1.puts) exchange.now.request.now)
            shelf.new.1 result }
        ensures same { R.page shelf.new.0 ≡ R.page shelf.old.0 }
        ensures counted { IfOk result (λ a. RendersPuts (R.count shelf.old.0) shelf.old.1.puts
            (R.count shelf.new.0) shelf.new.1.puts (moves_of a.edit) 0) }
    {
        let Some(reader) = reader else {
            return exchange.status(Status::Unauthorized);
        };
        let Some(route) = self.routes.route(exchange.request.target.get()) else {
            return exchange.status(Status::NotFound);
        };
        at_route(exchange, shelf, reader, self.media, route)
    }

    /// Whether the request of an exchange edits a page.
    fn edits_page(&self, exchange: &Exchange) -> bool
        ensures { result
            ≡ edits_page exchange.now.method (route_of exchange.now.request.now.target) }
    {
        match self.routes.route(exchange.request.target.get()) {
            Some(route) => edits_at(exchange.method, route),
            None => false,
        }
    }

    /// The exchange that a request begins.
    pub(crate) fn exchange<'a>(&self, request: &'a Request, manner: Manner<'a>) -> Exchange<'a>
        ensures request { result.request.now ≡ request.now }
        ensures method { result.method ≡ method_of request.now.method }
        ensures manner { result.manner ≡ manner.entry }
        ensures takes_puts { result.takes_puts ≡ self.now.takes_puts }
    {
        Exchange {
            heap: self.heap,
            request,
            method: Method::of(request.method.get()),
            manner,
            takes_puts: self.takes_puts,
        }
    }

    /// How the replies to who asks are written, where there are settings for people.
    pub(crate) fn manner<'a>(
        &self,
        request: &Request,
        browse: &'a Browse,
        asking: &Asking,
    ) -> Manner<'a>
        ensures dress { dress_of result ≡ dress_for browse.now (asking_shown asking.now) }
        ensures head_only { result.head_only ≡ is_bare request.now.method }
        ensures close { result.close ≡ closes_after self.now.settings.now request.now }
    {
        Manner {
            head_only: head_only(request),
            close: self.closes_after(request),
            guarded: true,
            private: asking.is_guest(),
            realm: realm_of(browse),
        }
    }

    pub(crate) fn closes_after(&self, request: &Request) -> bool
        ensures { result ≡ closes_after self.now.settings.now request.now }
    {
        request.close || !self.settings.keep_alive
    }

    /// The entry of the request's token.
    pub(crate) fn reader_of(&self, request: &Request) -> Option<&Reader>
        ensures { option_copied result ≡ entry_of self.now.readers.now request.now }
    {
        match bearer(request) {
            Some(token) => self.readers.find(token),
            None => None,
        }
    }
}

/// Whether a method edits what a route leads to.
fn edits_at(method: Method, route: Route<'_>) -> bool
    ensures { result ≡ edits_at method (route_shown route.entry) }
{
    match route {
        Route::Page(_) => matches!(method, Method::Put | Method::Delete),
        _ => false,
    }
}
