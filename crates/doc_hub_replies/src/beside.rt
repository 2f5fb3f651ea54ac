//! Requests in which the media have a part that stand beside the pages.

ghost use Rattle.std.specs.Prelude.{◌≡◌, IfOk, Some, option_copied};
ghost use Rattle.doc_http.specs.Requests.{is_bare};
ghost use Rattle.doc_http_replies.specs.Manners.{dress_of};
ghost use Rattle.doc_hub_asking.specs.Asking.{reader_asking};
ghost use Rattle.doc_hub_asking.specs.AskingSteps.{asking_shown};
ghost use Rattle.doc_hub_media.specs.MediaRequests.{media_request_of};
ghost use Rattle.doc_hub_media.specs.MediaSteps.{media_request_shown};
ghost use Rattle.doc_hub_replies.specs.Answers.{dress_by};
ghost use Rattle.doc_hub_replies.specs.ServingSteps.{answered_beside, closes_after, response_beside};

use crate::asked::{head_only, is_for_people};
use crate::serving::Serving;
use doc_http::manner::Manner;
use doc_http::request::Request;
use doc_hub_asking::asking::{Asking, known, who_asks};
use doc_hub_media::Shelf;
use doc_hub_media::answer::Answer;
use doc_hub_media::media_request::{MediaRequest, media_request};
use doc_hub_media::media_visit::MediaVisit;
use doc_media::media::Media;
use doc_page::renderer::Renderer;
use doc_page_parts::failure::Memory;
use doc_people::settings::Browse;

impl Serving<'_> {
    /// The answer, where media have a part in it. What has none takes no memory here but where a page is asked for, or edited.
    pub(crate) fn by_media<R: Renderer + Drop>(
        &self,
        shelf: &Shelf<R>,
        request: &Request,
    ) -> Result<Option<Answer>, Memory>
        ensures { IfOk result (λ a. a
            ≡ answered_beside self.now.settings.now self.now.readers.now request.now
            (response_beside self.now.settings.now self.now.readers.now (R.page shelf.now.0)
            shelf.now.1.site self.now.media.now request.now)) }
    {
        let Some(media) = self.media else {
            return Ok(None);
        };
        let Some(asked) = media_request(self.browse(), self.routes, request) else {
            return Ok(None);
        };
        self.by_medium(shelf, request, media, asked)
    }

    /// The same of what may be asked of media.
    fn by_medium<R: Renderer + Drop>(
        &self,
        shelf: &Shelf<R>,
        request: &Request,
        media: &Media,
        asked: MediaRequest<'_>,
    ) -> Result<Option<Answer>, Memory>
        requires { media_request_of self.now.settings.now.browse request.now
            ≡ Some (media_request_shown asked) }
        ensures { IfOk result (λ a. a
            ≡ answered_beside self.now.settings.now self.now.readers.now request.now
            (response_beside self.now.settings.now self.now.readers.now (R.page shelf.now.0)
            shelf.now.1.site (Some media.now) request.now)) }
    {
        let asking = self.asking(request)?;
        let Some(row) = asking.row() else {
            return Ok(None);
        };
        let exchange = self.exchange(request, self.manner_by(request, &asking));
        let visit = MediaVisit {
            exchange: &exchange,
            browse: self.browse(),
            shelf,
            media,
            reader: row,
            guest: asking.is_guest(),
            for_people: is_for_people(request),
        };
        visit.answer(asked)
    }

    /// Who asks, by the settings.
    pub(crate) fn asking(&self, request: &Request) -> Result<Asking<'_>, Memory>
        ensures { IfOk result (λ asking. asking_shown asking
            ≡ reader_asking self.now.settings.now.browse self.now.readers.now request.now) }
    {
        match &self.settings.browse {
            None => Ok(known(self.reader_of(request))),
            Some(browse) => who_asks(self.heap, browse, self.readers, request),
        }
    }

    /// How the replies to who asks are written, by the settings.
    pub(crate) fn manner_by(&self, request: &Request, asking: &Asking) -> Manner<'_>
        ensures dress { dress_of result
            ≡ dress_by self.now.settings.now.browse (asking_shown asking.now) }
        ensures head_only { result.head_only ≡ is_bare request.now.method }
        ensures close { result.close ≡ closes_after self.now.settings.now request.now }
    {
        match &self.settings.browse {
            None => Manner::plain(head_only(request), self.closes_after(request)),
            Some(browse) => self.manner(request, browse, asking),
        }
    }

    /// The settings for people, where there are some.
    pub(crate) fn browse(&self) -> Option<&Browse>
        ensures { option_copied result ≡ self.now.settings.now.browse }
    {
        match &self.settings.browse {
            None => None,
            Some(browse) => Some(browse),
        }
    }
}
