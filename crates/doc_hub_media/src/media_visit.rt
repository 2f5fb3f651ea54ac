//! Requests of a reader or of a guest that media may have a part in, as they are answered.

ghost use Rattle.std.specs.Prelude.{◌≡◌, ◌++◌, IfOk, None, Some, codes, if◌then◌else◌, is_some, option_copied, true};
ghost use Rattle.doc_http_targets.specs.WrittenPaths.{path_written};
ghost use Rattle.doc_media.specs.Media.{beside_of, medium_in};
ghost use Rattle.doc_page_encoding.specs.Encoding.{encoded_path};
ghost use Rattle.doc_shelf_pages.specs.ViewLaws.{seen_in};
ghost use Rattle.doc_hub_editing_refusals.specs.AskedSteps.{edit_request_shown};
ghost use Rattle.doc_hub_editing.specs.EditAnswers.{not_found};
ghost use Rattle.doc_hub_editing.specs.EditResponses.{only_reply};
ghost use Rattle.doc_hub_editing.specs.EditSteps.{editing_sent};
ghost use Rattle.doc_hub_editing.specs.PeopleAnswers.{offers_for};
ghost use Rattle.doc_hub_media.specs.MediaAnswers.{at_itself, by_entry, edit_at, form_at, form_kept};
ghost use Rattle.doc_hub_media.specs.MediaSteps.{media_request_shown, sent_if};

use crate::media_desk::MediaDesk;
use crate::media_request::MediaRequest;
use doc_http::reply_form::ReplyForm;
use doc_http::status::Status;
use doc_http_targets::written_path::written_path;
use doc_hub_editing::Shelf;
use doc_hub_editing::answer::Answer;
use doc_hub_editing::desk::Desk;
use doc_hub_editing::exchange::Exchange;
use doc_hub_editing::visit::Visit;
use doc_hub_editing_refusals::edit_request::EditRequest;
use doc_media::media::Media;
use doc_page::renderer::Renderer;
use doc_page_encoding::encoding::push_encoded_path;
use doc_page_parts::failure::Memory;
use doc_page_parts::heap::{Heap, String};
use doc_page_parts::path::Path;
use doc_page_parts::text::Text;
use doc_people::settings::Browse;
use doc_store::reader::Reader;

/// A request of a reader or of a guest, and the pages and the media that it is about.
#[derive(Clone, Copy)]
pub struct MediaVisit<'a, R: Renderer + Drop> {
    pub exchange: &'a Exchange<'a>,
    /// The settings for people, where there are some.
    pub browse: Option<&'a Browse>,
    pub shelf: &'a Shelf<R>,
    pub media: &'a Media,
    /// The entry of who asks.
    pub reader: &'a Reader,
    /// Whether a guest asks.
    pub guest: bool,
    /// Whether the request is one for people.
    pub for_people: bool,
}

impl<R: Renderer + Drop> MediaVisit<'_, R> {
    /// The answer, where media have a part in it: a medium that who asks sees, and to an owner what is told of paths that are kept for
    /// media. It takes no more memory than the answer and the path that is asked for.
    pub fn answer(&self, asked: MediaRequest<'_>) -> Result<Option<Answer>, Memory>
        ensures { IfOk result (λ a. a ≡ sent_if self.now.exchange.now (by_entry
            (option_copied self.now.browse) (R.page self.now.shelf.now.0)
            (seen_in self.now.shelf.now.1 self.now.reader.now)
            (beside_of (Some self.now.media.now) (Some self.now.reader.now)) self.now.guest
            self.now.reader.now self.now.for_people self.now.exchange.now.request.now
            (Some (media_request_shown asked.entry)))) }
    {
        match asked {
            MediaRequest::Read(rest) => self.desk().read(rest),
            MediaRequest::Edit(what) => self.edit_by(what),
        }
    }

    /// The same of an edit, or of what serves one, which is answered so to owners alone.
    fn edit_by(&self, what: EditRequest<'_>) -> Result<Option<Answer>, Memory>
        ensures { IfOk result (λ a. a ≡ sent_if self.now.exchange.now
            (if self.now.reader.now.owner then edit_at
            (option_copied self.now.browse) (R.page self.now.shelf.now.0)
            (seen_in self.now.shelf.now.1 self.now.reader.now)
            (beside_of (Some self.now.media.now) (Some self.now.reader.now)) self.now.guest
            self.now.for_people self.now.exchange.now.request.now
            (edit_request_shown what.entry) else None)) }
    {
        if !self.reader.owner {
            return Ok(None);
        }
        self.edit_at(what)
    }

    /// The same to an owner.
    fn edit_at(&self, what: EditRequest<'_>) -> Result<Option<Answer>, Memory>
        ensures { IfOk result (λ a. a ≡ sent_if self.now.exchange.now (edit_at
            (option_copied self.now.browse) (R.page self.now.shelf.now.0)
            (seen_in self.now.shelf.now.1 self.now.reader.now)
            (beside_of (Some self.now.media.now) (Some self.now.reader.now)) self.now.guest
            self.now.for_people self.now.exchange.now.request.now
            (edit_request_shown what.entry))) }
    {
        match what {
            EditRequest::PutSource(rest) => self.desk().put(rest),
            EditRequest::PutPage(rest) => self.desk().put(rest),
            EditRequest::Remove(rest) => self.desk().remove(rest),
            EditRequest::Move(rest) => self.desk().move_page(rest),
            EditRequest::Open(rest) => self.open(rest),
            EditRequest::Preview(rest) => self.desk().preview(rest),
            EditRequest::ReadSource(_) => Ok(None),
            EditRequest::Regroup(_) => Ok(None),
            EditRequest::NotAllowed(_) => Ok(None),
        }
    }

    /// What is told of the form of the page that the rest of a target writes, where the path is kept for media.
    fn open(&self, rest: &str) -> Result<Option<Answer>, Memory>
        ensures { IfOk result (λ a. a ≡ sent_if self.now.exchange.now (form_at
            (option_copied self.now.browse) (R.page self.now.shelf.now.0)
            (seen_in self.now.shelf.now.1 self.now.reader.now)
            (beside_of (Some self.now.media.now) (Some self.now.reader.now)) self.now.guest
            self.now.for_people (path_written rest.now))) }
    {
        let Some(browse) = self.browse else {
            return Ok(None);
        };
        let Some(path) = written_path(self.exchange.heap, rest)? else {
            return Ok(None);
        };
        if !self.desk().is_kept(&path) {
            return Ok(None);
        }
        Ok(Some(self.form_kept(browse, &path)?))
    }

    /// The same at a path that is kept.
    fn form_kept(&self, browse: &Browse, path: &Path) -> Result<Answer, Memory>
        ensures { IfOk result (λ a. a ≡ editing_sent self.now.exchange.now (form_kept
            (R.page self.now.shelf.now.0) browse.now self.now.guest
            (seen_in self.now.shelf.now.1 self.now.reader.now) self.now.for_people path.now
            (is_some (medium_in (beside_of (Some self.now.media.now)
            (Some self.now.reader.now)) path.now)))) }
    {
        if self.desk().has_medium(path) {
            self.at_itself(browse, path)
        } else {
            self.not_found(browse)
        }
    }

    /// The answer that the medium of a path stands at its own address.
    fn at_itself(&self, browse: &Browse, path: &Path) -> Result<Answer, Memory>
        ensures { IfOk result (λ a. a ≡ editing_sent self.now.exchange.now
            (only_reply (at_itself browse.now self.now.for_people path.now))) }
    {
        let address = page_address(self.exchange.heap, path)?;
        if self.for_people {
            self.visit(browse).moved(address.get())
        } else {
            self.exchange.reply(ReplyForm::Moved(address))
        }
    }

    /// The answer that there is nothing to be edited.
    fn not_found(&self, browse: &Browse) -> Result<Answer, Memory>
        ensures { IfOk result (λ a. a ≡ editing_sent self.now.exchange.now (not_found
            (R.page self.now.shelf.now.0) browse.now (offers_for browse.now self.now.guest true)
            (seen_in self.now.shelf.now.1 self.now.reader.now) self.now.for_people)) }
    {
        if self.for_people {
            let view = self.shelf.view(self.reader, &None);
            self.visit(browse).not_found(&view, None)
        } else {
            self.exchange.status(Status::NotFound)
        }
    }

    /// What an owner's pages are made with.
    fn visit<'a>(&'a self, browse: &'a Browse) -> Visit<'a>
        ensures exchange { result.exchange.now ≡ self.now.exchange.now }
        ensures browse { result.browse.now ≡ browse.now }
        ensures guest { result.guest ≡ self.now.guest }
        ensures owner { result.owner ≡ true }
    {
        Visit {
            exchange: self.exchange,
            browse,
            guest: self.guest,
            owner: true,
        }
    }

    fn desk(&self) -> MediaDesk<'_>
        ensures exchange { result.desk.exchange.now ≡ self.now.exchange.now }
        ensures store { result.desk.store.now ≡ self.now.shelf.now.1 }
        ensures reader { result.desk.reader.now ≡ self.now.reader.now }
        ensures media { result.media.now ≡ self.now.media.now }
    {
        MediaDesk {
            desk: Desk {
                exchange: self.exchange,
                store: self.shelf.store(),
                reader: self.reader,
            },
            media: self.media,
        }
    }
}

/// The address of the page or the medium of a path.
fn page_address(heap: Heap, path: &Path) -> Result<Text, Memory>
    ensures { IfOk result (λ text. text ≡ codes "/page/" ++ encoded_path path.now) }
{
    let mut address = String::from_str(heap, "/page/")?;
    push_encoded_path(&mut address, path.text())?;
    Ok(Text::new(address))
}
