//! The answer to a request for people, by what its target asks for.

ghost use Rattle.std.specs.Prelude.{◌≡◌, IfOk};
ghost use Rattle.doc_http_targets.specs.PeopleTargets.{people_route_of, people_route_shown};
ghost use Rattle.doc_hub_people.specs.PeopleAnswers.{has_sign_in, on_route, page_asked, people_at, sign_in_by};
ghost use Rattle.doc_hub_people.specs.VisitSteps.{offers_of, people_sent};

use crate::lists::{broken_answer, contents_answer, folder_answer, search_answer};
use crate::pages::{backlinks_answer, front_answer, page_answer};
use crate::visit::{Visit, has_sign_in, unauthorized};
use doc_http_targets::people_route::PeopleRoute;
use doc_http_targets::route::Route;
use doc_http_targets::routes::Routes;
use doc_http_targets::written_path::written_path;
use doc_hub_answers::answer::Answer;
use doc_page_parts::failure::Memory;
use doc_page_parts::path::Path;
use doc_people::viewed::Viewed;

/// The answer to a request for people of a guest or a reader, who sees this view. It makes no edit.
pub fn people_answer<V: Viewed>(
    visit: Visit<'_>,
    routes: &Routes,
    view: &V,
) -> Result<Answer, Memory>
    ensures { IfOk result (λ a. a ≡ people_sent visit.entry.exchange.now (on_route
        (V.render view.now) visit.entry.browse.now (offers_of visit.entry) (V.view view.now)
        (V.media view.now) visit.entry.guest visit.entry.exchange.now.request.now.target
        (people_route_of visit.entry.exchange.now.request.now.target))) }
{
    match routes.people_route(visit.exchange.request.target.get()) {
        Some(route) => at_route(visit, route, view),
        None => visit.not_found(view, None),
    }
}

/// The path that a request for people asks the page of, if it asks for one and writes a path.
pub fn page_asked(visit: Visit<'_>, routes: &Routes) -> Result<Option<Path>, Memory>
    ensures { IfOk result (λ path. path ≡ page_asked
        (people_route_of visit.entry.exchange.now.request.now.target)) }
{
    match routes.people_route(visit.exchange.request.target.get()) {
        Some(PeopleRoute::Plain(Route::Page(rest))) => written_path(visit.exchange.heap, rest),
        _ => Ok(None),
    }
}

/// The same where a route leads.
fn at_route<V: Viewed>(visit: Visit<'_>, route: PeopleRoute<'_>, view: &V) -> Result<Answer, Memory>
    ensures { IfOk result (λ a. a ≡ people_sent visit.entry.exchange.now (people_at
        (V.render view.now) visit.entry.browse.now (offers_of visit.entry) (V.view view.now)
        (V.media view.now) visit.entry.guest visit.entry.exchange.now.request.now.target
        (people_route_shown route.entry))) }
{
    match route {
        PeopleRoute::Front => front_answer(visit, view),
        PeopleRoute::SignIn => sign_in_answer(visit, view),
        PeopleRoute::Folder(rest) => folder_answer(visit, view, rest),
        PeopleRoute::Plain(Route::Page(rest)) => page_answer(visit, view, rest),
        PeopleRoute::Plain(Route::Backlinks(rest)) => backlinks_answer(visit, view, rest),
        PeopleRoute::Plain(Route::Contents) => contents_answer(visit, view),
        PeopleRoute::Plain(Route::Search) => search_answer(visit, view),
        PeopleRoute::Plain(Route::Broken) => broken_answer(visit, view),
    }
}

/// The way to sign in, where there is one: guests are asked to, and readers have done so.
fn sign_in_answer<V: Viewed>(visit: Visit<'_>, view: &V) -> Result<Answer, Memory>
    ensures { IfOk result (λ a. a ≡ people_sent visit.entry.exchange.now (sign_in_by
        (V.render view.now) visit.entry.browse.now (offers_of visit.entry) (V.view view.now)
        (has_sign_in visit.entry.browse.now) visit.entry.guest)) }
{
    if !has_sign_in(visit.browse) {
        return visit.not_found(view, None);
    }
    if visit.guest {
        unauthorized(visit.exchange, visit.browse)
    } else {
        visit.moved("/")
    }
}
