//! What a reader gets where a route leads: to GET and HEAD, and to the methods that edit.

ghost use Rattle.std.specs.Prelude.{◌≡◌, IfOk, OnOk, Some};
ghost use Rattle.doc_media.specs.Media.{beside_of};
ghost use Rattle.doc_store_readers.specs.Sites.{view_of};
ghost use Rattle.doc_hub_answers.specs.AnswerSteps.{Answered, sent_in};
ghost use Rattle.doc_hub_answers.specs.Counts.{RendersPuts};
ghost use Rattle.doc_hub_answers.specs.Edits.{puts_taken};
ghost use Rattle.doc_hub_answers.specs.Replies.{at_route, edit_at, edit_page, only_reply, reply_at};
ghost use Rattle.doc_http_targets.specs.Targets.{route_shown};

use crate::answer::Answer;
use crate::edits::{delete_page, put_page};
use crate::exchange::Exchange;
use crate::lists::{backlinks_answer, broken_answer, contents_answer, search_answer};
use crate::method::Method;
use crate::reading::answer_at;
use doc_http::reply::Allow;
use doc_http::reply_form::ReplyForm;
use doc_http::status::Status;
use doc_http_targets::route::Route;
use doc_media::media::Media;
use doc_page::renderer::Renderer;
use doc_page_parts::failure::Memory;
use doc_shelf::Shelf;
use doc_store::reader::Reader;

/// The answer where a route leads: to GET and HEAD, which each resource has, or to another method.
pub fn at_route<R: Renderer + Drop>(
    exchange: &Exchange,
    shelf: &mut Shelf<R>,
    reader: &Reader,
    media: &Option<Media>,
    route: Route<'_>,
) -> Result<Answer, Memory>
    ensures answer { Answered exchange.now shelf.old.1
        (at_route (R.page shelf.old.0) (view_of shelf.old.1.site (Some reader.now))
        (beside_of media.now (Some reader.now))
        reader.now.owner (puts_taken exchange.now.takes_puts shelf.old.1.puts)
        (route_shown route.entry) exchange.now.request.now exchange.now.method)
        shelf.new.1 result }
    ensures same { R.page shelf.new.0 ≡ R.page shelf.old.0 }
    ensures counted { OnOk result (RendersPuts (R.count shelf.old.0) shelf.old.1.puts
        (R.count shelf.new.0) shelf.new.1.puts 0 0) }
{
    if exchange.method.reads() {
        read_at(exchange, shelf, reader, media, route)
    } else {
        edit_at(exchange, shelf, reader, route)
    }
}

/// The answer to GET and HEAD.
fn read_at<R: Renderer + Drop>(
    exchange: &Exchange,
    shelf: &mut Shelf<R>,
    reader: &Reader,
    media: &Option<Media>,
    route: Route<'_>,
) -> Result<Answer, Memory>
    ensures answer { IfOk result (λ a. a ≡ sent_in exchange.now (only_reply (reply_at
        (R.page shelf.old.0) (view_of shelf.old.1.site (Some reader.now))
        (beside_of media.now (Some reader.now))
        (route_shown route.entry) exchange.now.request.now))) }
    ensures same { shelf.new ≡ shelf.old }
{
    match route {
        Route::Page(rest) => answer_at(exchange, shelf, reader, media, rest),
        Route::Backlinks(rest) => backlinks_answer(exchange, shelf, reader, rest),
        Route::Contents => contents_answer(exchange, shelf, reader),
        Route::Search => search_answer(exchange, shelf, reader),
        Route::Broken => broken_answer(exchange, shelf, reader, media),
    }
}

/// The answer to another method. Pages alone are edited.
fn edit_at<R: Renderer + Drop>(
    exchange: &Exchange,
    shelf: &mut Shelf<R>,
    reader: &Reader,
    route: Route<'_>,
) -> Result<Answer, Memory>
    ensures answer { Answered exchange.now shelf.old.1
        (edit_at (view_of shelf.old.1.site (Some reader.now)) reader.now.owner
        (puts_taken exchange.now.takes_puts shelf.old.1.puts) (route_shown route.entry)
        exchange.now.request.now exchange.now.method) shelf.new.1 result }
    ensures same { R.page shelf.new.0 ≡ R.page shelf.old.0 }
    ensures counted { OnOk result (RendersPuts (R.count shelf.old.0) shelf.old.1.puts
        (R.count shelf.new.0) shelf.new.1.puts 0 0) }
{
    match route {
        Route::Page(rest) => edit_page(exchange, shelf, reader, rest),
        _ => exchange.reply(ReplyForm::NotAllowed(Allow::Read)),
    }
}

/// The same at a page, which owners alone edit.
fn edit_page<R: Renderer + Drop>(
    exchange: &Exchange,
    shelf: &mut Shelf<R>,
    reader: &Reader,
    rest: &str,
) -> Result<Answer, Memory>
    ensures answer { Answered exchange.now shelf.old.1
        (edit_page (view_of shelf.old.1.site (Some reader.now)) reader.now.owner
        (puts_taken exchange.now.takes_puts shelf.old.1.puts) rest.now
        exchange.now.request.now exchange.now.method) shelf.new.1 result }
    ensures same { R.page shelf.new.0 ≡ R.page shelf.old.0 }
    ensures counted { OnOk result (RendersPuts (R.count shelf.old.0) shelf.old.1.puts
        (R.count shelf.new.0) shelf.new.1.puts 0 0) }
{
    match exchange.method {
        Method::Put if reader.owner => put_page(exchange, shelf, rest),
        Method::Delete if reader.owner => delete_page(exchange, shelf, rest),
        Method::Put | Method::Delete => exchange.status(Status::Forbidden),
        _ => exchange.reply(ReplyForm::NotAllowed(Allow::Page)),
    }
}
