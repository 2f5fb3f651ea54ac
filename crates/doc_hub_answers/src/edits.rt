//! Edits of the site that requests of owners ask for.

ghost use Rattle.std.specs.Prelude.{◌≡◌, ◌&&◌, IfOk, OnOk, Some, true, codes, if◌then◌else◌, is_ok};
ghost use Rattle.std.specs.FinMap as map;
ghost use Rattle.std.specs.Result.{result_ok};
ghost use Rattle.doc_http_replies.specs.ReplyForms.{code_of};
ghost use Rattle.doc_http_targets.specs.Queries.{parameter};
ghost use Rattle.doc_http_targets.specs.WrittenPaths.{path_written};
ghost use Rattle.doc_store_readers.specs.Groups.{groups_of};
ghost use Rattle.doc_store_readers.specs.Sites.{view_of};
ghost use Rattle.doc_store_readers.specs.declared.reader.Reader.{Reader};
ghost use Rattle.doc_store.specs.Store.{fits_in};
ghost use Rattle.doc_hub_answers.specs.AnswerSteps.{Answered, AnsweredSo, sent_in};
ghost use Rattle.doc_hub_answers.specs.Counts.{RendersPuts};
ghost use Rattle.doc_hub_answers.specs.Edits.{puts_taken};
ghost use Rattle.doc_hub_answers.specs.Replies.{delete_at, put_by, put_page};

use crate::answer::Answer;
use crate::edit::Edit;
use crate::exchange::Exchange;
use doc_http::reply_form::ReplyForm;
use doc_http::request::Request;
use doc_http::status::Status;
use doc_http_targets::query::parameter;
use doc_http_targets::written_path::written_path;
use doc_page::renderer::Renderer;
use doc_page_parts::failure::Memory;
use doc_page_parts::heap::Heap;
use doc_page_parts::path::Path;
use doc_shelf::{Saying, Shelf};
use doc_store::groups::{Groups, GroupsError};
use doc_store::store::Store;
use std::str::from_utf8;

/// What an owner's PUT under the path that the rest of its target writes is answered. The page is put
/// where it fits.
pub fn put_page<R: Renderer + Drop>(
    exchange: &Exchange,
    shelf: &mut Shelf<R>,
    rest: &str,
) -> Result<Answer, Memory>
    ensures answer { (reader : Reader) → reader.owner ≡ true → Answered exchange.now shelf.old.1
        (put_by (view_of shelf.old.1.site (Some reader))
        (puts_taken exchange.now.takes_puts shelf.old.1.puts) rest.now
        exchange.now.request.now) shelf.new.1 result }
    ensures same { R.page shelf.new.0 ≡ R.page shelf.old.0 }
    ensures counted { OnOk result (RendersPuts (R.count shelf.old.0) shelf.old.1.puts
        (R.count shelf.new.0) shelf.new.1.puts 0 0) }
{
    let Some(path) = written_path(exchange.heap, rest)? else {
        return exchange.status(Status::BadRequest);
    };
    let Some(groups) = groups_of(exchange.heap, exchange.request)? else {
        return exchange.status(Status::BadRequest);
    };
    let Ok(text) = from_utf8(exchange.request.body.get()) else {
        return exchange.status(Status::BadRequest);
    };
    put_text(exchange, shelf, path, groups, text)
}

/// The same of these groups and this text under a path. The answer is written before the page is put, since a
/// put could not be taken back where the answer then found no memory.
fn put_text<R: Renderer + Drop>(
    exchange: &Exchange,
    shelf: &mut Shelf<R>,
    path: Path,
    groups: Groups,
    text: &str,
) -> Result<Answer, Memory>
    ensures answer { (reader : Reader) → reader.owner ≡ true → AnsweredSo text.now shelf.old.1
        (sent_in exchange.now (put_page (view_of shelf.old.1.site (Some reader))
        (puts_taken exchange.now.takes_puts shelf.old.1.puts) path groups text.now))
        shelf.new.1 result }
    ensures same { R.page shelf.new.0 ≡ R.page shelf.old.0 }
    ensures counted { OnOk result (RendersPuts (R.count shelf.old.0) shelf.old.1.puts
        (R.count shelf.new.0) shelf.new.1.puts 0 0) }
{
    if !is_taken(exchange, shelf.store(), &path, text) {
        return exchange.status(Status::InsufficientStorage);
    }
    let form = ReplyForm::Status(put_status(shelf.store(), &path));
    let saying = Saying {
        form: &form,
        manner: exchange.manner,
    };
    let bytes = shelf.put_saying(&path, &groups, text, saying)?;
    Ok(exchange.sent(bytes).after(Edit::Put(path, groups)))
}

/// Whether a put of a text under a path is taken.
fn is_taken(exchange: &Exchange, store: &Store, path: &Path, text: &str) -> bool
    ensures { result
        ≡ (exchange.now.takes_puts && is_ok (fits_in store.now path.now text.now)) }
{
    exchange.takes_puts && store.fits(path, text).is_ok()
}

/// What a put is answered that is accepted: 204 where a page stands under the path, and else 201.
fn put_status(store: &Store, path: &Path) -> Status
    ensures { code_of result
        ≡ (if map.contains_key store.now.site.pages path.now then 204 else 201) }
{
    if stands(store, path) {
        Status::NoContent
    } else {
        Status::Created
    }
}

fn stands(store: &Store, path: &Path) -> bool
    ensures { result ≡ map.contains_key store.now.site.pages path.now }
{
    store.get(path).is_some()
}

/// The groups that the query of a request names; none of them where it names groups that are none.
fn groups_of(heap: Heap, request: &Request) -> Result<Option<Groups>, Memory>
    ensures { IfOk result (λ groups.
        groups ≡ result_ok (groups_of (parameter request.now.target (codes "groups")))) }
{
    let names = parameter(heap, request.target.get(), "groups")?;
    match Groups::new(heap, names.get()) {
        Ok(groups) => Ok(Some(groups)),
        Err(GroupsError::Memory) => Err(Memory),
        Err(_) => Ok(None),
    }
}

/// What an owner's DELETE of the path that the rest of its target writes is answered. The page is removed
/// where one stands.
pub fn delete_page<R: Renderer + Drop>(
    exchange: &Exchange,
    shelf: &mut Shelf<R>,
    rest: &str,
) -> Result<Answer, Memory>
    ensures answer { (reader : Reader) → reader.owner ≡ true → Answered exchange.now shelf.old.1
        (delete_at (view_of shelf.old.1.site (Some reader)) (path_written rest.now))
        shelf.new.1 result }
    ensures same { R.page shelf.new.0 ≡ R.page shelf.old.0 }
    ensures counted { OnOk result (RendersPuts (R.count shelf.old.0) shelf.old.1.puts
        (R.count shelf.new.0) shelf.new.1.puts 0 0) }
{
    let Some(path) = written_path(exchange.heap, rest)? else {
        return exchange.status(Status::NotFound);
    };
    if !stands(shelf.store(), &path) {
        return exchange.status(Status::NotFound);
    }
    let done = exchange.status(Status::NoContent)?;
    shelf.remove(&path);
    Ok(done.after(Edit::Remove(path)))
}
