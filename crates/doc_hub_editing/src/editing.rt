//! Requests that edit, as they are answered.

ghost use Rattle.std.specs.Prelude.{◌≡◌, IfOk, Some, false, true};
ghost use Rattle.doc_media.specs.Media.{beside_of};
ghost use Rattle.doc_shelf_pages.specs.ViewLaws.{seen_in};
ghost use Rattle.doc_hub_people.specs.AnswerSteps.{AnsweredSo};
ghost use Rattle.doc_hub_people.specs.Counts.{RendersPuts, moves_of, previews_of};
ghost use Rattle.doc_hub_people.specs.Edits.{puts_taken};
ghost use Rattle.doc_hub_people.specs.PeopleAnswers.{offers_for};
ghost use Rattle.doc_hub_editing_refusals.specs.AskedSteps.{edit_request_shown};
ghost use Rattle.doc_hub_editing.specs.EditAnswers.{by_entry, by_other, by_owner, shows_preview};
ghost use Rattle.doc_hub_editing.specs.EditResponses.{only_reply};
ghost use Rattle.doc_hub_editing.specs.EditSteps.{asks_preview, editing_sent, refusal_reply};

use crate::desk::Desk;
use crate::forms::Forms;
use crate::making::make;
use crate::previews::preview;
use doc_http::reply_form::ReplyForm;
use doc_hub_editing_refusals::edit_request::EditRequest;
use doc_hub_editing_refusals::refusal::{Refusal, refusal_to};
use doc_hub_people::Shelf;
use doc_hub_people::answer::Answer;
use doc_hub_people::exchange::Exchange;
use doc_hub_people::visit::{Visit, unauthorized};
use doc_media::media::Media;
use doc_page::renderer::Renderer;
use doc_page_parts::failure::Memory;
use doc_people::settings::Browse;
use doc_store::reader::Reader;

/// A request that edits, and who asks.
#[derive(Clone, Copy)]
pub struct Editing<'a> {
    pub exchange: &'a Exchange<'a>,
    pub browse: &'a Browse,
    /// The entry of who asks.
    pub reader: &'a Reader,
    /// The media of the site.
    pub media: &'a Option<Media>,
    /// Whether a guest asks.
    pub guest: bool,
    /// Whether the request is one for people.
    pub for_people: bool,
}

impl Editing<'_> {
    /// The answer to what is asked, and the edit that goes with it, which is made. A method that the resource hasn't is refused first, and
    /// then who is no owner, before anything is looked up. Where memory runs out the pages are as they were.
    pub fn answer<R: Renderer + Drop>(
        &self,
        shelf: &mut Shelf<R>,
        asked: EditRequest<'_>,
    ) -> Result<Answer, Memory>
        ensures answer { AnsweredSo self.now.exchange.now.request.now.body shelf.old.1
            (editing_sent self.now.exchange.now (by_entry (R.page shelf.old.0)
            self.now.browse.now (seen_in shelf.old.1 self.now.reader.now)
            (beside_of self.now.media.now (Some self.now.reader.now)) self.now.guest
            self.now.reader.now (puts_taken self.now.exchange.now.takes_puts shelf.old.1.puts)
            self.now.for_people self.now.exchange.now.request.now
            (edit_request_shown asked.entry))) shelf.new.1 result }
        ensures same { R.page shelf.new.0 ≡ R.page shelf.old.0 }
        ensures counted { IfOk result (λ a. RendersPuts (R.count shelf.old.0) shelf.old.1.puts
            (R.count shelf.new.0) shelf.new.1.puts (moves_of a.edit)
            (previews_of (shows_preview self.now.reader.now.owner
            self.now.exchange.now.request.now (Some (edit_request_shown asked.entry))))) }
    {
        if !self.reader.owner {
            return self.by_other(shelf, asked);
        }
        if let EditRequest::Preview(rest) = asked {
            return preview(self.visit(), shelf, self.reader, self.media, rest);
        }
        let answer = self.by_owner(shelf, asked)?;
        let heap = self.exchange.heap;
        make(heap, shelf, self.exchange.request.body.get(), &answer.edit)?;
        Ok(answer)
    }

    /// The answer to an owner, but to a preview, with the edit that is to be made.
    fn by_owner<R: Renderer + Drop>(
        &self,
        shelf: &Shelf<R>,
        asked: EditRequest<'_>,
    ) -> Result<Answer, Memory>
        requires owner { self.now.reader.now.owner ≡ true }
        requires no_preview { asks_preview (edit_request_shown asked) ≡ false }
        ensures { IfOk result (λ a. a ≡ editing_sent self.now.exchange.now (by_owner
            (R.page shelf.now.0) self.now.browse.now
            (offers_for self.now.browse.now self.now.guest self.now.reader.now.owner)
            (seen_in shelf.now.1 self.now.reader.now)
            (beside_of self.now.media.now (Some self.now.reader.now))
            (puts_taken self.now.exchange.now.takes_puts shelf.now.1.puts) self.now.for_people
            self.now.exchange.now.request.now (edit_request_shown asked.entry))) }
    {
        let desk = Desk {
            exchange: self.exchange,
            store: shelf.store(),
            reader: self.reader,
        };
        match asked {
            EditRequest::ReadSource(rest) => desk.read_source(rest),
            EditRequest::PutSource(rest) => desk.put(true, rest),
            EditRequest::PutPage(rest) => desk.put(false, rest),
            EditRequest::Remove(rest) => desk.remove(rest),
            EditRequest::Regroup(rest) => desk.regroup(rest),
            EditRequest::Move(rest) => desk.move_page(rest),
            EditRequest::Open(rest) => self.forms(shelf).open(rest),
            EditRequest::Preview(_) => unreachable!(),
            EditRequest::NotAllowed(resource) => {
                self.exchange.reply(ReplyForm::NotAllowed(resource))
            }
        }
    }

    /// The answer to one who is no owner.
    fn by_other<R: Renderer + Drop>(
        &self,
        shelf: &Shelf<R>,
        asked: EditRequest<'_>,
    ) -> Result<Answer, Memory>
        ensures { IfOk result (λ a. a ≡ editing_sent self.now.exchange.now (by_other
            (R.page shelf.now.0) self.now.browse.now
            (offers_for self.now.browse.now self.now.guest self.now.reader.now.owner)
            (seen_in shelf.now.1 self.now.reader.now) self.now.guest self.now.for_people
            (edit_request_shown asked.entry))) }
    {
        let visit = self.visit();
        let view = shelf.view(self.reader, self.media);
        let refusal = refusal_to(visit.frame(), &view, self.guest, self.for_people, asked)?;
        refused_with(visit, refusal)
    }

    /// What its pages are made with.
    fn visit(&self) -> Visit<'_>
        ensures exchange { result.exchange.now ≡ self.now.exchange.now }
        ensures browse { result.browse.now ≡ self.now.browse.now }
        ensures guest { result.guest ≡ self.now.guest }
        ensures owner { result.owner ≡ self.now.reader.now.owner }
    {
        Visit {
            exchange: self.exchange,
            browse: self.browse,
            guest: self.guest,
            owner: self.reader.owner,
        }
    }

    /// The same for a form.
    fn forms<'a, R: Renderer + Drop>(&'a self, shelf: &'a Shelf<R>) -> Forms<'a, R>
        ensures exchange { result.visit.exchange.now ≡ self.now.exchange.now }
        ensures browse { result.visit.browse.now ≡ self.now.browse.now }
        ensures guest { result.visit.guest ≡ self.now.guest }
        ensures owner { result.visit.owner ≡ self.now.reader.now.owner }
        ensures shelf { result.shelf.now ≡ shelf.now }
        ensures reader { result.reader.now ≡ self.now.reader.now }
        ensures for_people { result.for_people ≡ self.now.for_people }
    {
        Forms {
            visit: self.visit(),
            shelf,
            reader: self.reader,
            media: self.media,
            for_people: self.for_people,
        }
    }
}

/// The answer that refuses what one who is no owner asks.
fn refused_with(visit: Visit<'_>, refusal: Refusal) -> Result<Answer, Memory>
    ensures { IfOk result (λ a. a ≡ editing_sent visit.entry.exchange.now
        (only_reply (refusal_reply visit.entry.browse.now refusal))) }
{
    match refusal {
        Refusal::Plain(form) => visit.exchange.reply(form),
        Refusal::SignIn => unauthorized(visit.exchange, visit.browse),
        Refusal::Page(body) => visit.page(403, &body),
    }
}
