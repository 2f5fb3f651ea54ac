//! The lists that people are shown: contents, what a search finds, and broken links.

ghost use Rattle.std.specs.Prelude.{◌≡◌, IfOk, [], codes};
ghost use Rattle.doc_http_targets.specs.Queries.{parameter};
ghost use Rattle.doc_http_targets.specs.WrittenFolders.{folder_written};
ghost use Rattle.doc_people.specs.BrokenLinks.{broken_body};
ghost use Rattle.doc_people.specs.Lists.{contents_body};
ghost use Rattle.doc_people.specs.Search.{search_body, search_code};
ghost use Rattle.doc_hub_people.specs.PeopleAnswers.{folder_reply, page_reply};
ghost use Rattle.doc_hub_people.specs.VisitSteps.{offers_of, people_sent};

use crate::visit::Visit;
use doc_http_targets::query::parameter;
use doc_http_targets::written_folder::written_folder;
use doc_hub_answers::answer::Answer;
use doc_page_parts::failure::Memory;
use doc_page_parts::text::Text;
use doc_people::viewed::Viewed;
use doc_people_lists::{broken_body, contents_body, sees_folder};
use doc_people_search::search::search_body;

/// The contents of the whole site.
pub fn contents_answer<V: Viewed>(visit: Visit<'_>, view: &V) -> Result<Answer, Memory>
    ensures { IfOk result (λ a. a ≡ people_sent visit.entry.exchange.now (page_reply 200
        (contents_body (V.render view.now) visit.entry.browse.now (offers_of visit.entry)
        (V.view view.now) []
        (parameter visit.entry.exchange.now.request.now.target (codes "from"))))) }
{
    let from = named(visit, "from")?;
    let body = contents_body(visit.frame(), view, "", from.get())?;
    visit.page(200, &body)
}

/// The contents of the folder that the rest of a target writes, where it is seen.
pub fn folder_answer<V: Viewed>(visit: Visit<'_>, view: &V, rest: &str) -> Result<Answer, Memory>
    ensures { IfOk result (λ a. a ≡ people_sent visit.entry.exchange.now (folder_reply
        (V.render view.now) visit.entry.browse.now (offers_of visit.entry) (V.view view.now)
        (parameter visit.entry.exchange.now.request.now.target (codes "from"))
        (folder_written rest.now))) }
{
    let Some(folder) = written_folder(visit.exchange.heap, rest)? else {
        return visit.not_found(view, None);
    };
    if !sees_folder(view, folder.get())? {
        return visit.not_found(view, None);
    }
    let from = named(visit, "from")?;
    let body = contents_body(visit.frame(), view, folder.get(), from.get())?;
    visit.page(200, &body)
}

/// What a search finds.
pub fn search_answer<V: Viewed>(visit: Visit<'_>, view: &V) -> Result<Answer, Memory>
    ensures { IfOk result (λ a. a ≡ people_sent visit.entry.exchange.now (page_reply
        (search_code (parameter visit.entry.exchange.now.request.now.target (codes "q")))
        (search_body (V.render view.now) visit.entry.browse.now (offers_of visit.entry)
        (V.view view.now) (parameter visit.entry.exchange.now.request.now.target (codes "q"))))) }
{
    let query = named(visit, "q")?;
    let searched = search_body(visit.frame(), view, query.get())?;
    visit.page(searched.code, &searched.body)
}

/// The links that are broken for who asks.
pub fn broken_answer<V: Viewed>(visit: Visit<'_>, view: &V) -> Result<Answer, Memory>
    ensures { IfOk result (λ a. a ≡ people_sent visit.entry.exchange.now (page_reply 200
        (broken_body (V.render view.now) visit.entry.browse.now (offers_of visit.entry)
        (V.view view.now) (V.media view.now)
        (parameter visit.entry.exchange.now.request.now.target (codes "from"))))) }
{
    let from = named(visit, "from")?;
    let body = broken_body(visit.frame(), view, from.get())?;
    visit.page(200, &body)
}

/// What the query of the request has under a name.
fn named(visit: Visit<'_>, name: &str) -> Result<Text, Memory>
    ensures { IfOk result (λ value.
        value ≡ parameter visit.entry.exchange.now.request.now.target name.now) }
{
    parameter(
        visit.exchange.heap,
        visit.exchange.request.target.get(),
        name,
    )
}
