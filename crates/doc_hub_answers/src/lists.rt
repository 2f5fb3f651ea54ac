//! The lists that a reader gets: contents, backlinks, what a search finds, and broken links.

ghost use Rattle.std.specs.Prelude.{◌≡◌, IfOk, Some, codes};
ghost use Rattle.std.specs.Result.{result_ok};
ghost use Rattle.doc_media.specs.Media.{beside_of};
ghost use Rattle.doc_http_targets.specs.Queries.{parameter};
ghost use Rattle.doc_http_targets.specs.WrittenPaths.{path_written};
ghost use Rattle.doc_hub_answers.specs.AnswerSteps.{sent_in};
ghost use Rattle.doc_hub_answers.specs.Replies.{backlinks_at, html_reply, only_reply, search_at, text_reply};
ghost use Rattle.doc_shelf_pages.specs.Views.{contents_body, report_body};
ghost use Rattle.doc_store_readers.specs.Sites.{view_of};
ghost use Rattle.doc_words_search.specs.Words.{query_of};

use crate::answer::Answer;
use crate::exchange::Exchange;
use crate::goals::goal_answer;
use doc_http::request::Request;
use doc_http::status::Status;
use doc_http_replies::pieces::Pieces;
use doc_http_targets::query::parameter;
use doc_http_targets::written_path::written_path;
use doc_listings::{CONTENTS_END, CONTENTS_FRONT};
use doc_media::media::Media;
use doc_page::renderer::Renderer;
use doc_page_parts::failure::Memory;
use doc_page_parts::heap::Heap;
use doc_page_parts::list::List;
use doc_page_parts::path::Path;
use doc_shelf::Shelf;
use doc_store::reader::Reader;
use doc_words::query::{QueryError, query};
use doc_words::word::Word;

/// The pages that the reader sees, with their headings.
pub fn contents_answer<R: Renderer + Drop>(
    exchange: &Exchange,
    shelf: &Shelf<R>,
    reader: &Reader,
) -> Result<Answer, Memory>
    ensures { IfOk result (λ a. a ≡ sent_in exchange.now (only_reply (html_reply (contents_body
        (R.page shelf.now.0) (view_of shelf.now.1.site (Some reader.now)))))) }
{
    let lines = shelf.contents(reader)?;
    exchange.pieces(
        true,
        &Pieces {
            front: CONTENTS_FRONT,
            texts: &lines,
            end: CONTENTS_END,
        },
    )
}

/// The pages that the reader sees with links to the page that the rest of a target writes, where they see that; or where its
/// backlinks stand now, where the path is an alias of a page that they see.
pub fn backlinks_answer<R: Renderer + Drop>(
    exchange: &Exchange,
    shelf: &Shelf<R>,
    reader: &Reader,
    rest: &str,
) -> Result<Answer, Memory>
    ensures { IfOk result (λ a. a ≡ sent_in exchange.now (only_reply (backlinks_at
        (R.page shelf.now.0) (view_of shelf.now.1.site (Some reader.now))
        (path_written rest.now)))) }
{
    match written_path(exchange.heap, rest)? {
        Some(path) => backlinks_under(exchange, shelf, reader, &path),
        None => exchange.status(Status::NotFound),
    }
}

/// The same of a path.
fn backlinks_under<R: Renderer + Drop>(
    exchange: &Exchange,
    shelf: &Shelf<R>,
    reader: &Reader,
    path: &Path,
) -> Result<Answer, Memory>
    ensures { IfOk result (λ a. a ≡ sent_in exchange.now (only_reply (backlinks_at
        (R.page shelf.now.0) (view_of shelf.now.1.site (Some reader.now)) (Some path.now)))) }
{
    match shelf.backlinks(path, reader)? {
        Some(lines) => exchange.content(false, &lines),
        None => goal_answer(exchange, "/backlinks/", path, &shelf.store().sight(reader)),
    }
}

/// The pages that the reader sees and that have each word of the query, the best first.
pub fn search_answer<R: Renderer + Drop>(
    exchange: &Exchange,
    shelf: &Shelf<R>,
    reader: &Reader,
) -> Result<Answer, Memory>
    ensures { IfOk result (λ a. a ≡ sent_in exchange.now (only_reply (search_at
        (R.page shelf.now.0) (view_of shelf.now.1.site (Some reader.now))
        exchange.now.request.now.target))) }
{
    let Some(words) = words_asked(exchange.heap, exchange.request)? else {
        return exchange.status(Status::BadRequest);
    };
    exchange.content(false, &shelf.search(words.get(), reader)?)
}

/// The words that the query of a request names; none where it has none or too many.
fn words_asked(heap: Heap, request: &Request) -> Result<Option<List<Word>>, Memory>
    ensures { IfOk result (λ words.
        words ≡ result_ok (query_of (parameter request.now.target (codes "q")))) }
{
    let text = parameter(heap, request.target.get(), "q")?;
    match query(heap, text.get()) {
        Ok(words) => Ok(Some(words)),
        Err(QueryError::Memory) => Err(Memory),
        Err(_) => Ok(None),
    }
}

/// The broken links of the pages that the reader sees, beside the media that they see.
pub fn broken_answer<R: Renderer + Drop>(
    exchange: &Exchange,
    shelf: &Shelf<R>,
    reader: &Reader,
    media: &Option<Media>,
) -> Result<Answer, Memory>
    ensures { IfOk result (λ a. a ≡ sent_in exchange.now (only_reply (text_reply (report_body
        (R.page shelf.now.0) (view_of shelf.now.1.site (Some reader.now))
        (beside_of media.now (Some reader.now)))))) }
{
    exchange.content(false, &shelf.report(reader, media)?)
}
