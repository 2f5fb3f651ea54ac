//! The routes of the hub.

ghost use Rattle.std.specs.Prelude.{◌≡◌, Ok, option_copied, option_map, OnOk};
ghost use Rattle.matchit.specs.Route.{parse_route};
ghost use Rattle.matchit.specs.Router.{InsertsRead};
ghost use Rattle.doc_http_targets.specs.RouteSteps.{CanStand, leads_to, route_table};
ghost use Rattle.doc_http_targets.specs.TargetSteps.{rest_of};
ghost use Rattle.doc_http_targets.specs.Targets.{route_at, route_of, route_shown};

use crate::origin_form::{after_slash, origin_part, path_part};
use crate::route::Route;
use doc_page_parts::failure::Memory;
use doc_page_parts::heap::Heap;
use matchit::{InsertError, Router};

/// What a route leads to.
#[derive(Clone, Copy)]
enum Place {
    Page,
    Backlinks,
    Contents,
    Search,
    Broken,
}

/// The routes, found by a router: `/page/REST`, `/backlinks/REST`, `/contents`, `/search` and `/broken`. Case counts.
#[derive(Drop)]
pub struct Routes {
    router: Router<Place>,
    ghost rows: { router ≡ route_table },
}

impl Routes {
    ghost use Rattle.doc_http_targets.specs.RouteSteps.{place_of};

    /// The router takes no memory after this call.
    pub fn new(heap: Heap) -> Result<Routes, Memory> {
        let mut router = Router::new(heap);
        add(&mut router, "/page/{*rest}", Place::Page)?;
        add(&mut router, "/backlinks/{*rest}", Place::Backlinks)?;
        add(&mut router, "/contents", Place::Contents)?;
        add(&mut router, "/search", Place::Search)?;
        add(&mut router, "/broken", Place::Broken)?;
        Ok(Routes { router })
    }

    /// What a request's target asks for, by the part before its `?`. The target is in origin form, or in absolute form under `http`
    /// (RFC 9112, sections 3.2.1 and 3.2.2); `None` for each other target, and where no route has the path.
    pub fn route<'a>(&self, target: &'a str) -> Option<Route<'a>>
        ensures { option_map route_shown result ≡ route_of target.now }
    {
        let form = origin_part(target)?;
        self.at(path_part(form))
    }

    /// What a path asks for.
    fn at<'a>(&self, path: &'a str) -> Option<Route<'a>>
        ensures { option_map route_shown result ≡ route_at path.now }
    {
        leads_to(self.place(path)?, path)
    }

    fn place(&self, path: &str) -> Option<Place>
        ensures { result ≡ place_of path.now }
    {
        match self.router.at(path) {
            Ok(found) => Some(*found.value),
            Err(_) => None,
        }
    }
}

/// Adds a route that the router reads, and that conflicts with none that it has.
fn add(router: &mut Router<Place>, route: &str, place: Place) -> Result<(), Memory>
    requires { CanStand (parse_route route.now) router.old }
    ensures { OnOk result
        (InsertsRead (parse_route route.now) place router.old router.new (Ok tt)) }
{
    match router.insert(route, place) {
        Ok(()) => Ok(()),
        Err(error) => match error {
            InsertError::OutOfMemory => Err(Memory),
            _ => unreachable!(),
        },
    }
}

/// What a place asks for at a path.
fn leads_to<'a>(place: Place, path: &'a str) -> Option<Route<'a>>
    ensures { option_map route_shown result ≡ leads_to place path.now }
{
    match place {
        Place::Page => Some(Route::Page(rest_of(path)?)),
        Place::Backlinks => Some(Route::Backlinks(rest_of(path)?)),
        Place::Contents => Some(Route::Contents),
        Place::Search => Some(Route::Search),
        Place::Broken => Some(Route::Broken),
    }
}

/// What follows the second `/`.
fn rest_of(path: &str) -> Option<&str>
    ensures { option_copied result ≡ rest_of path.now }
{
    after_slash(after_slash(path)?)
}
