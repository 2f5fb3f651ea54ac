//! What is answered at the path of a page: the page, the pages that link to it, and the front.

ghost use Rattle.std.specs.Prelude.{◌≡◌, ◌++◌, IfOk, codes, option_copied};
ghost use Rattle.doc_http_targets.specs.Queries.{parameter};
ghost use Rattle.doc_http_targets.specs.WrittenPaths.{path_written};
ghost use Rattle.doc_page_encoding.specs.Encoding.{encoded_path};
ghost use Rattle.doc_people.specs.KeptPaths.{begun_at};
ghost use Rattle.doc_store_readers.specs.Sites.{goal_in};
ghost use Rattle.doc_hub_people.specs.PeopleAnswers.{backlinks_under, front_location, goal_reply, moved_reply, page_under};
ghost use Rattle.doc_hub_people.specs.VisitSteps.{offers_of, people_sent};

use crate::visit::Visit;
use doc_http_targets::query::parameter;
use doc_http_targets::written_path::written_path;
use doc_hub_answers::answer::Answer;
use doc_page_parts::failure::Memory;
use doc_page_parts::heap::String;
use doc_page_parts::path::Path;
use doc_people::viewed::Viewed;
use doc_people_lists::backlinks_body;
use doc_people_pages::page_body;
use doc_resolve::encoding::push_encoded_path;

/// The page at the front, where it or an alias of it is seen, and else the contents.
pub fn front_answer<V: Viewed>(visit: Visit<'_>, view: &V) -> Result<Answer, Memory>
    ensures { IfOk result (λ a. a ≡ people_sent visit.entry.exchange.now (moved_reply
        visit.entry.browse.now
        (front_location (goal_in (V.view view.now) visit.entry.browse.now.home)))) }
{
    match view.goal(&visit.browse.home)? {
        Some(goal) => moved_to(visit, "/page/", &goal),
        None => visit.moved("/contents"),
    }
}

/// The page of the path that the rest of a target writes, as who asks sees it; or where it stands now; what they don't see isn't found.
pub fn page_answer<V: Viewed>(visit: Visit<'_>, view: &V, rest: &str) -> Result<Answer, Memory>
    ensures { IfOk result (λ a. a ≡ people_sent visit.entry.exchange.now (page_under
        (V.render view.now) visit.entry.browse.now (offers_of visit.entry) (V.view view.now)
        (V.media view.now) (path_written rest.now))) }
{
    let Some(path) = written_path(visit.exchange.heap, rest)? else {
        return visit.not_found(view, None);
    };
    let frame = visit.frame();
    if let Some(body) = view.kept_body(frame.browse, frame.offers, &path) {
        return visit.page(200, body);
    }
    match page_body(frame, view, &path)? {
        Some(body) => visit.page(200, &body),
        None => goal_answer(visit, view, "/page/", &path, begun_at(view, &path)),
    }
}

/// The pages that link to it.
pub fn backlinks_answer<V: Viewed>(visit: Visit<'_>, view: &V, rest: &str) -> Result<Answer, Memory>
    ensures { IfOk result (λ a. a ≡ people_sent visit.entry.exchange.now (backlinks_under
        (V.render view.now) visit.entry.browse.now (offers_of visit.entry) (V.view view.now)
        (parameter visit.entry.exchange.now.request.now.target (codes "from"))
        (path_written rest.now))) }
{
    let Some(path) = written_path(visit.exchange.heap, rest)? else {
        return visit.not_found(view, None);
    };
    if !view.sees(path.text())? {
        return goal_answer(visit, view, "/backlinks/", &path, None);
    }
    let from = parameter(
        visit.exchange.heap,
        visit.exchange.request.target.get(),
        "from",
    )?;
    let body = backlinks_body(visit.frame(), view, &path, from.get())?;
    visit.page(200, &body)
}

/// The path, where a page may begin at it: at none that is kept for media.
fn begun_at<'a, V: Viewed>(view: &V, path: &'a Path) -> Option<&'a str>
    ensures { option_copied result ≡ begun_at (V.view view.now) (V.media view.now) path.now }
{
    if view.is_kept(path) {
        return None;
    }
    Some(path.text())
}

/// The answer at a path where no page is seen; where a page may be begun at one, it is offered.
fn goal_answer<V: Viewed>(
    visit: Visit<'_>,
    view: &V,
    front: &str,
    path: &Path,
    new: Option<&str>,
) -> Result<Answer, Memory>
    ensures { IfOk result (λ a. a ≡ people_sent visit.entry.exchange.now (goal_reply
        (V.render view.now) visit.entry.browse.now (offers_of visit.entry) (V.view view.now)
        front.now (option_copied new.entry) (goal_in (V.view view.now) path.now))) }
{
    match view.goal(path)? {
        Some(goal) => moved_to(visit, front, &goal),
        None => visit.not_found(view, new),
    }
}

/// What was asked for stands under this path now. The front is that of the route.
fn moved_to(visit: Visit<'_>, front: &str, goal: &Path) -> Result<Answer, Memory>
    ensures { IfOk result (λ a. a ≡ people_sent visit.entry.exchange.now (moved_reply
        visit.entry.browse.now (front.now ++ encoded_path goal.now))) }
{
    let room = front.len().saturating_add(goal.text().len());
    let mut location = String::with_capacity(visit.exchange.heap, room)?;
    location.push_str(front)?;
    push_encoded_path(&mut location, goal.text())?;
    visit.moved(location.as_str())
}
