//! What is answered where no edits are taken.

ghost use Rattle.std.specs.Prelude.{◌≡◌, IfOk, option_copied, option_map};
ghost use Rattle.doc_http_targets.specs.EditTargets.{edit_route_shown};
ghost use Rattle.doc_http_targets.specs.Targets.{route_shown};
ghost use Rattle.doc_hub_asking.specs.Asking.{reader_asking};
ghost use Rattle.doc_hub_replies.specs.Answers.{dress_by};
ghost use Rattle.doc_hub_replies.specs.ServingSteps.{closes_after};
ghost use Rattle.doc_hub_replies.specs.TakingEdits.{editing_route, left_of, left_of_editing, left_to, not_left, posts, refused_method, unless_left};

use crate::serving::Serving;
use doc_http::reply::Allow;
use doc_http::reply_form::ReplyForm;
use doc_http::request::Request;
use doc_http_targets::edit_route::{EditRoute, edit_route};
use doc_http_targets::route::Route;
use doc_http_targets::routes::Routes;
use doc_hub_media::answer::Answer;
use doc_hub_media::method::Method;
use doc_page_parts::failure::Memory;
use doc_people::settings::Browse;

impl Serving<'_> {
    /// The answer to whoever has an entry, where no edits are taken and the method isn't what is left of the resource's.
    pub(crate) fn without_edits(&self, request: &Request) -> Result<Option<Answer>, Memory>
        ensures { let asking = reader_asking self.now.settings.now.browse
            self.now.readers.now request.now in
            IfOk result (λ a. a ≡ option_map (refused_method
            (dress_by self.now.settings.now.browse asking)
            (closes_after self.now.settings.now request.now) request.now)
            (left_to self.now.settings.now asking request.now)) }
    {
        if self.settings.takes_edits {
            return Ok(None);
        }
        let Some(allow) = not_left(self.browse(), self.routes, request) else {
            return Ok(None);
        };
        let asking = self.asking(request)?;
        let Some(_row) = asking.row() else {
            return Ok(None);
        };
        let exchange = self.exchange(request, self.manner_by(request, &asking));
        let answer = exchange.reply(ReplyForm::NotAllowed(allow))?;
        Ok(Some(answer))
    }
}

/// What is left of what a request asks for, where its method isn't part of it.
pub fn not_left(browse: Option<&Browse>, routes: &Routes, request: &Request) -> Option<Allow>
    ensures { result ≡ not_left (option_copied browse.entry) request.now }
{
    let method = Method::of(request.method.get());
    match editing_route(browse, request) {
        Some(route) => left_of_editing(route, method),
        None => left_of(routes.route(request.target.get()), method),
    }
}

/// The route of editing, where pages are edited so.
fn editing_route<'a>(browse: Option<&Browse>, request: &'a Request) -> Option<EditRoute<'a>>
    ensures { option_map edit_route_shown result
        ≡ editing_route (option_copied browse.entry) request.now }
{
    let browse = browse?;
    if !browse.editing {
        return None;
    }
    edit_route(request.target.get())
}

fn left_of_editing(route: EditRoute<'_>, method: Method) -> Option<Allow>
    ensures { result ≡ left_of_editing (edit_route_shown route.entry) method }
{
    match route {
        EditRoute::Source(_) | EditRoute::Edit(_) => unless_left(method.reads(), Allow::Read),
        EditRoute::Groups(_) | EditRoute::Move(_) => Some(Allow::Nothing),
        EditRoute::Preview(_) => unless_left(posts(method), Allow::Post),
    }
}

/// Whether the method sends a text.
fn posts(method: Method) -> bool
    ensures { result ≡ posts method }
{
    matches!(method, Method::Post)
}

/// What is left of a page. Lists are only read in any case.
fn left_of(route: Option<Route<'_>>, method: Method) -> Option<Allow>
    ensures { result ≡ left_of (option_map route_shown route.entry) method }
{
    match route {
        Some(Route::Page(_)) => unless_left(method.reads(), Allow::Read),
        _ => None,
    }
}

/// What is left, where the method isn't part of it.
fn unless_left(left: bool, allow: Allow) -> Option<Allow>
    ensures { result ≡ unless_left left allow }
{
    if left { None } else { Some(allow) }
}
