//! What the target of a request asks for that concerns the source of a page.

ghost use Rattle.std.specs.Prelude.{◌≡◌, option_map};
ghost use Rattle.doc_http_targets.specs.EditTargets.{edit_at, edit_route_of, edit_route_shown};

use crate::origin_form::{after, rest_behind, target_path};

/// What a request asks for that concerns the source of a page. REST is what follows the second `/` of the target's path, as it is
/// written there; but for [`EditRoute::Edit`] it isn't empty.
#[derive(Clone, Copy, Debug, PartialEq, Eq)]
pub enum EditRoute<'a> {
    /// `/source/REST`: the text of the page whose path is written as REST.
    Source(&'a str),
    /// `/groups/REST`: the groups that may read it.
    Groups(&'a str),
    /// `/move/REST`: its path.
    Move(&'a str),
    /// `/edit/REST`: a form to edit it with. REST may be empty.
    Edit(&'a str),
    /// `/preview/REST`: what a text would look like there.
    Preview(&'a str),
}

/// What a request's target asks for that concerns the source of a page, by the part before its `?`; which forms a target may have is
/// said at [`Routes::route`](crate::routes::Routes::route). Case counts.
pub fn edit_route(target: &str) -> Option<EditRoute<'_>>
    ensures { option_map edit_route_shown result ≡ edit_route_of target.now }
{
    match target_path(target) {
        Some(path) => edit_at(path),
        None => None,
    }
}

/// The same at a path.
fn edit_at(path: &str) -> Option<EditRoute<'_>>
    ensures { option_map edit_route_shown result ≡ edit_at path.now }
{
    if let Some(rest) = rest_behind("/source/", path) {
        return Some(EditRoute::Source(rest));
    }
    if let Some(rest) = rest_behind("/groups/", path) {
        return Some(EditRoute::Groups(rest));
    }
    if let Some(rest) = rest_behind("/move/", path) {
        return Some(EditRoute::Move(rest));
    }
    if let Some(rest) = after("/edit/", path) {
        return Some(EditRoute::Edit(rest));
    }
    Some(EditRoute::Preview(rest_behind("/preview/", path)?))
}
