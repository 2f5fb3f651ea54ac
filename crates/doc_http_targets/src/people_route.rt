//! What the target of a request for people asks for.

ghost use Rattle.std.specs.Prelude.{◌≡◌, option_map};
ghost use Rattle.std.specs.Prelude.{codes};
ghost use Rattle.doc_http_targets.specs.PeopleTargets as people_targets;
ghost use Rattle.doc_http_targets.specs.PeopleTargets.{for_people_at, for_people_in, is_style_sheet, people_route_of, people_route_shown, target_path};
ghost use Rattle.doc_http_targets.specs.Targets.{rest_behind, route_of};

use crate::origin_form::{rest_behind, target_path};
use crate::route::Route;
use crate::routes::Routes;

/// What a people's request asks for. REST is what follows the second `/` of the target's path, as it is written there; it isn't empty.
#[derive(Clone, Copy, Debug, PartialEq, Eq)]
pub enum PeopleRoute<'a> {
    /// `/`: the page at the front.
    Front,
    /// `/sign-in`: to sign in as browsers do.
    SignIn,
    /// `/contents/REST`: the contents of the folder that is written as REST.
    Folder(&'a str),
    /// What other requests may ask for too.
    Plain(Route<'a>),
}

impl Routes {
    /// What the target of a people's request asks for, by the part before its `?`; which forms a target may have is said at
    /// [`Routes::route`].
    pub fn people_route<'a>(&self, target: &'a str) -> Option<PeopleRoute<'a>>
        ensures { option_map people_route_shown result ≡ people_route_of target.now }
    {
        match for_people(target) {
            Some(route) => Some(route),
            None => self.plain_route(target),
        }
    }

    /// What it asks for that other requests may ask for too.
    fn plain_route<'a>(&self, target: &'a str) -> Option<PeopleRoute<'a>>
        ensures { option_map people_route_shown result
            ≡ option_map people_targets.Plain (route_of target.now) }
    {
        match self.route(target) {
            Some(route) => Some(PeopleRoute::Plain(route)),
            None => None,
        }
    }
}

/// Whether the target asks for the style sheet of the pages for people.
pub fn is_style_sheet(target: &str) -> bool
    ensures { result ≡ is_style_sheet target.now }
{
    match target_path(target) {
        Some(path) => path == "/style.css",
        None => false,
    }
}

/// What only a people's request may ask for.
fn for_people(target: &str) -> Option<PeopleRoute<'_>>
    ensures { option_map people_route_shown result ≡ for_people_in (target_path target.now) }
{
    match target_path(target) {
        Some(path) => for_people_at(path),
        None => None,
    }
}

/// The same at a path.
fn for_people_at(path: &str) -> Option<PeopleRoute<'_>>
    ensures { option_map people_route_shown result ≡ for_people_at path.now }
{
    match path {
        "/" => Some(PeopleRoute::Front),
        "/sign-in" => Some(PeopleRoute::SignIn),
        _ => folder_at(path),
    }
}

/// The folder of a path that asks for one.
fn folder_at(path: &str) -> Option<PeopleRoute<'_>>
    ensures { option_map people_route_shown result
        ≡ option_map people_targets.Folder (rest_behind (codes "/contents/") path.now) }
{
    Some(PeopleRoute::Folder(rest_behind("/contents/", path)?))
}
