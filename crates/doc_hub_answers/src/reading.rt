//! What a reader gets of a page.

ghost use Rattle.std.specs.Prelude.{◌≡◌, IfOk, Some};
ghost use Rattle.doc_store_readers.specs.Sites.{view_of};
ghost use Rattle.doc_media.specs.Media.{beside_of};
ghost use Rattle.doc_http_targets.specs.WrittenPaths.{path_written};
ghost use Rattle.doc_hub_answers.specs.AnswerSteps.{sent_in};
ghost use Rattle.doc_hub_answers.specs.Replies.{at_path, only_reply};

use crate::answer::Answer;
use crate::exchange::Exchange;
use crate::goals::goal_answer;
use doc_http::status::Status;
use doc_http_targets::written_path::written_path;
use doc_media::media::Media;
use doc_page::renderer::Renderer;
use doc_page_parts::failure::Memory;
use doc_page_parts::path::Path;
use doc_shelf::Shelf;
use doc_store::reader::Reader;

/// The answer to GET and HEAD of the page that the rest of a target writes: the page as the reader sees
/// it, beside the media that they see, or where it stands now, where the path is an alias of a page that they see; what they don't see is
/// not found.
pub fn answer_at<R: Renderer + Drop>(
    exchange: &Exchange,
    shelf: &mut Shelf<R>,
    reader: &Reader,
    media: &Option<Media>,
    rest: &str,
) -> Result<Answer, Memory>
    ensures answer { IfOk result (λ a. a ≡ sent_in exchange.now
        (only_reply (at_path (R.page shelf.old.0) (view_of shelf.old.1.site (Some reader.now))
        (beside_of media.now (Some reader.now))
        (path_written rest.now)))) }
    ensures same { shelf.new ≡ shelf.old }
{
    match written_path(exchange.heap, rest)? {
        Some(path) => answer_under(exchange, shelf, reader, media, &path),
        None => exchange.status(Status::NotFound),
    }
}

/// The same of a path.
fn answer_under<R: Renderer + Drop>(
    exchange: &Exchange,
    shelf: &mut Shelf<R>,
    reader: &Reader,
    media: &Option<Media>,
    path: &Path,
) -> Result<Answer, Memory>
    ensures answer { IfOk result (λ a. a ≡ sent_in exchange.now
        (only_reply (at_path (R.page shelf.old.0) (view_of shelf.old.1.site (Some reader.now))
        (beside_of media.now (Some reader.now))
        (Some path.now)))) }
    ensures same { shelf.new ≡ shelf.old }
{
    match shelf.page(path, reader, media, exchange.manner)? {
        Some(bytes) => Ok(exchange.sent(bytes)),
        None => goal_answer(exchange, "/page/", path, &shelf.store().sight(reader)),
    }
}
