//! What a request asks that media may have a part in, by its target and its method.

ghost use Rattle.std.specs.Prelude.{◌≡◌, option_copied, option_map};
ghost use Rattle.doc_http_targets.specs.Targets.{route_shown};
ghost use Rattle.doc_hub_editing_refusals.specs.AskedSteps.{edit_request_shown};
ghost use Rattle.doc_hub_media.specs.MediaRequests.{at_page_or_medium, at_route, edit_asked, media_request_of};
ghost use Rattle.doc_hub_media.specs.MediaSteps.{media_request_shown};

use doc_http::request::Request;
use doc_http_targets::route::Route;
use doc_http_targets::routes::Routes;
use doc_hub_editing::edit_request::edit_request;
use doc_hub_editing::method::Method;
use doc_hub_editing_refusals::edit_request::EditRequest;
use doc_people::settings::Browse;

/// What a request asks that media may have a part in. REST is what follows the second `/` of its target's path, as it is written there.
#[derive(Clone, Copy)]
pub enum MediaRequest<'a> {
    /// GET and HEAD of `/page/REST`.
    Read(&'a str),
    /// An edit of a page, or what serves one.
    Edit(EditRequest<'a>),
}

/// What a request asks that media may have a part in.
pub fn media_request<'a>(
    browse: Option<&Browse>,
    routes: &Routes,
    request: &'a Request,
) -> Option<MediaRequest<'a>>
    ensures { option_map media_request_shown result
        ≡ media_request_of (option_copied browse.entry) request.now }
{
    match edit_asked(browse, routes, request) {
        Some(what) => Some(MediaRequest::Edit(what)),
        None => at_route(
            routes.route(request.target.get()),
            Method::of(request.method.get()),
        ),
    }
}

/// What a request edits by the settings for people, where there are some.
fn edit_asked<'a>(
    browse: Option<&Browse>,
    routes: &Routes,
    request: &'a Request,
) -> Option<EditRequest<'a>>
    ensures { option_map edit_request_shown result
        ≡ edit_asked (option_copied browse.entry) request.now }
{
    match browse {
        Some(browse) => edit_request(browse, routes, request),
        None => None,
    }
}

/// What a method asks for where a route leads.
fn at_route(route: Option<Route<'_>>, method: Method) -> Option<MediaRequest<'_>>
    ensures { option_map media_request_shown result
        ≡ at_route (option_map route_shown route.entry) method }
{
    match route {
        Some(Route::Page(rest)) => at_page(rest, method),
        _ => None,
    }
}

fn at_page(rest: &str, method: Method) -> Option<MediaRequest<'_>>
    ensures { option_map media_request_shown result ≡ at_page_or_medium rest.now method }
{
    match method {
        Method::Get | Method::Head => Some(MediaRequest::Read(rest)),
        Method::Put => Some(MediaRequest::Edit(EditRequest::PutPage(rest))),
        Method::Delete => Some(MediaRequest::Edit(EditRequest::Remove(rest))),
        Method::Post | Method::Other => None,
    }
}
