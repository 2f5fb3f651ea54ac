//! What a request asks of the source of a page, by its target and its method.

ghost use Rattle.std.specs.Prelude.{◌≡◌, option_map};
ghost use Rattle.doc_http_targets.specs.EditTargets.{edit_route_shown};
ghost use Rattle.doc_http_targets.specs.Targets.{route_shown};
ghost use Rattle.doc_hub_editing_refusals.specs.Asked as edit_requests;
ghost use Rattle.doc_hub_editing_refusals.specs.AskedSteps.{edit_request_shown};
ghost use Rattle.doc_hub_editing.specs.EditRequests.{at_edit_route, at_page, at_route, at_source, edit_request_of, if_posted, if_put, if_read};

use doc_http::reply::Allow;
use doc_http::request::Request;
use doc_http_targets::edit_route::{EditRoute, edit_route};
use doc_http_targets::route::Route;
use doc_http_targets::routes::Routes;
use doc_hub_editing_refusals::edit_request::EditRequest;
use doc_hub_people::method::Method;
use doc_people::settings::Browse;

/// What a request asks of the source of a page, where pages are edited so.
pub fn edit_request<'a>(
    browse: &Browse,
    routes: &Routes,
    request: &'a Request,
) -> Option<EditRequest<'a>>
    ensures { option_map edit_request_shown result ≡ edit_request_of browse.now request.now }
{
    if !browse.editing {
        return None;
    }
    let method = Method::of(request.method.get());
    let target = request.target.get();
    match edit_route(target) {
        Some(route) => Some(at_edit_route(route, method)),
        None => at_route(routes.route(target), method),
    }
}

/// What a method asks for where a route of editing leads.
fn at_edit_route(route: EditRoute<'_>, method: Method) -> EditRequest<'_>
    ensures { edit_request_shown result ≡ at_edit_route (edit_route_shown route.entry) method }
{
    match route {
        EditRoute::Source(rest) => at_source(rest, method),
        EditRoute::Groups(rest) => if_put(EditRequest::Regroup(rest), method),
        EditRoute::Move(rest) => if_put(EditRequest::Move(rest), method),
        EditRoute::Edit(rest) => if_read(EditRequest::Open(rest), method),
        EditRoute::Preview(rest) => if_posted(EditRequest::Preview(rest), method),
    }
}

/// What a method asks for at a page's source.
fn at_source(rest: &str, method: Method) -> EditRequest<'_>
    ensures { edit_request_shown result ≡ at_source rest.now method }
{
    match method {
        Method::Get | Method::Head => EditRequest::ReadSource(rest),
        Method::Put => EditRequest::PutSource(rest),
        Method::Delete => EditRequest::Remove(rest),
        Method::Post | Method::Other => EditRequest::NotAllowed(Allow::Page),
    }
}

/// What is only written.
fn if_put(asked: EditRequest<'_>, method: Method) -> EditRequest<'_>
    ensures { edit_request_shown result ≡ if_put (edit_request_shown asked.entry) method }
{
    match method {
        Method::Put => asked,
        _ => EditRequest::NotAllowed(Allow::Write),
    }
}

/// What is only read.
fn if_read(asked: EditRequest<'_>, method: Method) -> EditRequest<'_>
    ensures { edit_request_shown result ≡ if_read (edit_request_shown asked.entry) method }
{
    match method {
        Method::Get | Method::Head => asked,
        _ => EditRequest::NotAllowed(Allow::Read),
    }
}

/// What texts are sent to.
fn if_posted(asked: EditRequest<'_>, method: Method) -> EditRequest<'_>
    ensures { edit_request_shown result ≡ if_posted (edit_request_shown asked.entry) method }
{
    match method {
        Method::Post => asked,
        _ => EditRequest::NotAllowed(Allow::Post),
    }
}

/// What a method asks for where another route leads: at a page, the methods that edit it.
fn at_route(route: Option<Route<'_>>, method: Method) -> Option<EditRequest<'_>>
    ensures { option_map edit_request_shown result
        ≡ at_route (option_map route_shown route.entry) method }
{
    match route {
        Some(Route::Page(rest)) => at_page(rest, method),
        _ => None,
    }
}

fn at_page(rest: &str, method: Method) -> Option<EditRequest<'_>>
    ensures { option_map edit_request_shown result ≡ at_page rest.now method }
{
    match method {
        Method::Put => Some(EditRequest::PutPage(rest)),
        Method::Delete => Some(EditRequest::Remove(rest)),
        _ => None,
    }
}
