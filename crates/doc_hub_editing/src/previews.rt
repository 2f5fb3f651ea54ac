//! What a text would look like as a page, which is kept nowhere.

ghost use Rattle.std.specs.Prelude.{◌≡◌, ◌+◌, IfOk, Some, codes};
ghost use Rattle.doc_http_targets.specs.WrittenPaths.{path_written};
ghost use Rattle.doc_media.specs.Media.{beside_of};
ghost use Rattle.doc_people_editing.specs.Policies.{preview_policy};
ghost use Rattle.doc_shelf_pages.specs.ViewLaws.{seen_in};
ghost use Rattle.doc_hub_people.specs.Counts.{previews_of};
ghost use Rattle.doc_hub_editing.specs.EditAnswers.{guarded_page, preview_at, preview_of, preview_text, shows_preview_at};
ghost use Rattle.doc_hub_editing.specs.EditResponses.{Shown, only_reply, refused_for};
ghost use Rattle.doc_hub_editing.specs.EditSteps.{editing_sent};

use doc_http::status::Status;
use doc_http_replies::edit_reply::EditParts;
use doc_http_replies::people_reply::PeopleParts;
use doc_http_targets::written_path::written_path;
use doc_hub_people::Shelf;
use doc_hub_people::answer::Answer;
use doc_hub_people::visit::Visit;
use doc_media::media::Media;
use doc_media_links::BesideLinker;
use doc_page::renderer::Renderer;
use doc_page_parts::failure::Memory;
use doc_page_parts::filling::fill;
use doc_page_parts::path::Path;
use doc_page_parts::rendered::Rendered;
use doc_page_parts::text::Text;
use doc_people_editing::policies::PREVIEW_POLICY;
use doc_people_editing::preview::preview_body;
use doc_store::reader::Reader;
use std::str::from_utf8;

/// What a preview at the path that the rest of a target writes is answered to an owner. Its text is rendered once where it is shown, and
/// else not at all.
pub fn preview<R: Renderer + Drop>(
    visit: Visit<'_>,
    shelf: &mut Shelf<R>,
    reader: &Reader,
    media: &Option<Media>,
    rest: &str,
) -> Result<Answer, Memory>
    ensures answer { IfOk result (λ a. a ≡ editing_sent visit.entry.exchange.now (preview_at
        (R.page shelf.old.0) visit.entry.browse.now (seen_in shelf.old.1 reader.now)
        (beside_of media.now (Some reader.now))
        (path_written rest.now) visit.entry.exchange.now.request.now)) }
    ensures store { shelf.new.1 ≡ shelf.old.1 }
    ensures same { R.page shelf.new.0 ≡ R.page shelf.old.0 }
    ensures counted { IfOk result (λ a. R.count shelf.new.0 ≡ R.count shelf.old.0 + previews_of
        (shows_preview_at (path_written rest.now) visit.entry.exchange.now.request.now)) }
{
    match written_path(visit.exchange.heap, rest)? {
        Some(path) => preview_at(visit, shelf, reader, media, &path),
        None => visit.exchange.status(Status::NotFound),
    }
}

/// The same at a path.
fn preview_at<R: Renderer + Drop>(
    visit: Visit<'_>,
    shelf: &mut Shelf<R>,
    reader: &Reader,
    media: &Option<Media>,
    path: &Path,
) -> Result<Answer, Memory>
    ensures answer { IfOk result (λ a. a ≡ editing_sent visit.entry.exchange.now (preview_text
        (R.page shelf.old.0) visit.entry.browse.now (seen_in shelf.old.1 reader.now)
        (beside_of media.now (Some reader.now))
        path.now visit.entry.exchange.now.request.now)) }
    ensures store { shelf.new.1 ≡ shelf.old.1 }
    ensures same { R.page shelf.new.0 ≡ R.page shelf.old.0 }
    ensures counted { IfOk result (λ a. R.count shelf.new.0 ≡ R.count shelf.old.0 + previews_of
        (shows_preview_at (Some path.now) visit.entry.exchange.now.request.now)) }
{
    let exchange = visit.exchange;
    if !exchange.request.markdown {
        return exchange.status(Status::UnsupportedMediaType);
    }
    let Ok(text) = from_utf8(exchange.request.body.get()) else {
        return no_text(visit);
    };
    let rendered = shelf.render(text)?;
    shown(visit, shelf, reader, media, path, &rendered)
}

/// The answer that the body is no text.
fn no_text(visit: Visit<'_>) -> Result<Answer, Memory>
    ensures { IfOk result (λ a. a ≡ editing_sent visit.entry.exchange.now
        (refused_for 400 (codes "the text is not UTF-8"))) }
{
    let parts = EditParts {
        code: 400,
        text: &[],
        why: Some("the text is not UTF-8"),
        tag: None,
        groups: None,
    };
    let exchange = visit.exchange;
    let bytes = parts.write(
        exchange.heap,
        exchange.manner.head_only,
        exchange.manner.close,
    )?;
    Ok(exchange.sent(bytes))
}

/// The answer that shows what was rendered, with its links as the owner sees them.
fn shown<R: Renderer + Drop>(
    visit: Visit<'_>,
    shelf: &Shelf<R>,
    reader: &Reader,
    media: &Option<Media>,
    path: &Path,
    rendered: &Rendered,
) -> Result<Answer, Memory>
    ensures { IfOk result (λ a. a ≡ editing_sent visit.entry.exchange.now (only_reply (Shown
        (preview_of visit.entry.browse.now (seen_in shelf.now.1 reader.now)
        (beside_of media.now (Some reader.now)) path.now rendered.now)))) }
{
    let heap = visit.exchange.heap;
    let sight = shelf.store().sight(reader);
    let html = fill(
        heap,
        rendered,
        &BesideLinker::new(path, &sight, media, reader),
    )?;
    let body = preview_body(
        heap,
        visit.browse,
        path.text(),
        rendered.headings.get(),
        html.get(),
    )?;
    guarded_page(visit, &body)
}

/// The answer that is a page for people, of which nothing runs.
fn guarded_page(visit: Visit<'_>, body: &Text) -> Result<Answer, Memory>
    ensures { IfOk result (λ a. a ≡ editing_sent visit.entry.exchange.now
        (only_reply (Shown (guarded_page preview_policy body.now)))) }
{
    visit.answer(PeopleParts {
        code: 200,
        location: None,
        realm: None,
        policy: page_policy(),
        body: body.get().as_bytes(),
    })
}

/// What a preview may do.
#[tactic(auto, unfolding(doc_people_editing::specs::Policies::preview_policy))]
fn page_policy() -> &'static str
    ensures { result.now ≡ preview_policy }
{
    PREVIEW_POLICY
}
