//! One request for people, and how the reply to it is made.

ghost use Rattle.std.specs.Prelude.{◌≡◌, IfOk, option_copied};
ghost use Rattle.doc_http_replies.specs.Manners.{people_with};
ghost use Rattle.doc_hub_people.specs.PeopleAnswers.{has_sign_in, moved_reply, not_found_reply, page_reply, realm_of, unauthorized_reply};
ghost use Rattle.doc_hub_people.specs.VisitSteps.{offers_of, people_sent};

use doc_http_replies::people_reply::PeopleParts;
use doc_http_replies::policies::page_policy;
use doc_hub_answers::answer::Answer;
use doc_hub_answers::exchange::Exchange;
use doc_page_parts::failure::Memory;
use doc_page_parts::text::Text;
use doc_people::settings::{Browse, Offers};
use doc_people::viewed::Viewed;
use doc_people_shell::frame::Frame;
use doc_people_statuses::statuses::{moved_body, not_found_body, not_signed_in_body};

/// A request for people of a guest or a reader, and what its pages are made with.
#[derive(Clone, Copy)]
pub struct Visit<'a> {
    pub exchange: &'a Exchange<'a>,
    pub browse: &'a Browse,
    /// Whether a guest asks.
    pub guest: bool,
    /// Whether an owner asks.
    pub owner: bool,
}

impl Visit<'_> {
    /// What the pages are made with.
    pub fn frame(&self) -> Frame<'_>
        ensures browse { result.browse.now ≡ self.now.browse.now }
        ensures offers { result.offers ≡ offers_of self.now }
    {
        Frame {
            heap: self.exchange.heap,
            browse: self.browse,
            offers: Offers {
                sign_in: self.guest && has_sign_in(self.browse),
                tools: self.owner && self.browse.editing,
            },
        }
    }

    /// The answer that is a page, with its code.
    pub fn page(&self, code: u16, body: &Text) -> Result<Answer, Memory>
        ensures { IfOk result (λ a.
            a ≡ people_sent self.now.exchange.now (page_reply code body.now)) }
    {
        self.answer(PeopleParts {
            code,
            location: None,
            realm: None,
            policy: page_policy(),
            body: body.get().as_bytes(),
        })
    }

    /// The answer that what was asked for stands at this address.
    pub fn moved(&self, location: &str) -> Result<Answer, Memory>
        ensures { IfOk result (λ a.
            a ≡ people_sent self.now.exchange.now (moved_reply self.now.browse.now location.now)) }
    {
        let body = moved_body(self.exchange.heap, self.browse, location)?;
        self.answer(PeopleParts {
            code: 301,
            location: Some(location),
            realm: None,
            policy: page_policy(),
            body: body.get().as_bytes(),
        })
    }

    /// The answer that there is nothing that who asks may see; where it is the path of a page, one may be begun there.
    pub fn not_found<V: Viewed>(&self, view: &V, new: Option<&str>) -> Result<Answer, Memory>
        ensures { IfOk result (λ a. a ≡ people_sent self.now.exchange.now (not_found_reply
            (V.render view.now) self.now.browse.now (offers_of self.now) (V.view view.now)
            (option_copied new.entry))) }
    {
        let body = not_found_body(self.frame(), view, new)?;
        self.page(404, &body)
    }

    /// The answer with these parts.
    pub fn answer(&self, parts: PeopleParts<'_>) -> Result<Answer, Memory>
        ensures { IfOk result (λ a.
            a ≡ people_sent self.now.exchange.now (people_with parts.entry)) }
    {
        let manner = self.exchange.manner;
        let bytes = parts.write(self.exchange.heap, manner.head_only, manner.close)?;
        Ok(self.exchange.sent(bytes))
    }
}

/// Whether there is a way to sign in.
pub(crate) fn has_sign_in(browse: &Browse) -> bool
    ensures { result ≡ has_sign_in browse.now }
{
    browse.login && browse.guest.is_some()
}

/// The answer that who asks isn't signed in, into which nothing of any view goes.
pub fn unauthorized(exchange: &Exchange, browse: &Browse) -> Result<Answer, Memory>
    ensures { IfOk result (λ a. a ≡ people_sent exchange.now (unauthorized_reply browse.now)) }
{
    let body = not_signed_in_body(exchange.heap, browse)?;
    let parts = PeopleParts {
        code: 401,
        location: None,
        realm: realm_of(browse),
        policy: page_policy(),
        body: body.get().as_bytes(),
    };
    let bytes = parts.write(
        exchange.heap,
        exchange.manner.head_only,
        exchange.manner.close,
    )?;
    Ok(exchange.sent(bytes))
}

/// The title of the site, where readers may sign in as browsers do.
pub fn realm_of(browse: &Browse) -> Option<&str>
    ensures { option_copied result ≡ realm_of browse.now }
{
    if browse.login {
        Some(browse.title.get())
    } else {
        None
    }
}
