//! A request that media may have a part in, and the media and the pages that it is about.

ghost use Rattle.std.specs.Prelude.{◌≡◌, IfOk, Some, codes, false, is_some, option_map};
ghost use Rattle.doc_http_targets.specs.Queries.{optional_parameter};
ghost use Rattle.doc_http_targets.specs.WrittenPaths.{path_written};
ghost use Rattle.doc_media.specs.Media.{medium_in};
ghost use Rattle.doc_page_parts.specs.Paths.{path_of};
ghost use Rattle.doc_people.specs.KeptPaths.{is_kept};
ghost use Rattle.doc_store_readers.specs.Sites.{page_at};
ghost use Rattle.doc_hub_editing.specs.EditAnswers.{page_of};
ghost use Rattle.doc_hub_editing.specs.EditResponses.{refused, refused_for, unless, unmet_by};
ghost use Rattle.doc_hub_editing.specs.EditSteps.{request_at, told_at};
ghost use Rattle.doc_hub_media.specs.MediaAnswers.{is_boxed, is_saved, kept_at, move_kept, move_to, read_alone, read_at, stands_at, where_kept};
ghost use Rattle.doc_hub_media.specs.MediaAnswers as responses;
ghost use Rattle.doc_hub_media.specs.MediaSteps.{beside_at, media_sent, pages_at, told_there};

use doc_http::reply::Allow;
use doc_http::reply_form::ReplyForm;
use doc_http::status::Status;
use doc_http_media::medium_reply::MediumParts;
use doc_http_targets::query::optional_parameter;
use doc_http_targets::written_path::written_path;
use doc_hub_editing::answer::Answer;
use doc_hub_editing::desk::Desk;
use doc_media::kind::MediaKind;
use doc_media::manner::Manner;
use doc_media::media::Media;
use doc_media::medium::Medium;
use doc_page_parts::failure::Memory;
use doc_page_parts::path::{Path, PathError};
use doc_store::page::Page;

/// A request that media may have a part in, and the media and the pages that it is about.
#[derive(Clone, Copy)]
pub struct MediaDesk<'a> {
    pub desk: Desk<'a>,
    pub media: &'a Media,
}

impl MediaDesk<'_> {
    /// Whether a medium stands under a path that who asks sees.
    pub fn has_medium(&self, path: &Path) -> bool
        ensures { result ≡ is_some (medium_in (beside_at self.now) path.now) }
    {
        self.media.seen(self.desk.reader, path).is_some()
    }

    /// Whether a path is kept for media: one stands there, or no page does and the path's name is a medium's.
    pub fn is_kept(&self, path: &Path) -> bool
        ensures { result ≡ is_kept (pages_at self.now) (beside_at self.now) path.now }
    {
        self.has_medium(path) || (MediaKind::of(path).is_some() && !self.has_page(path))
    }

    fn has_page(&self, path: &Path) -> bool
        ensures { result ≡ is_some (page_at (pages_at self.now).pages path.now) }
    {
        self.desk.page(path).is_some()
    }

    /// Whether the path that the rest of a target writes is kept.
    fn kept_at(&self, rest: &str) -> Result<bool, Memory>
        ensures { IfOk result (λ kept.
            kept ≡ kept_at (pages_at self.now) (beside_at self.now) (path_written rest.now)) }
    {
        match written_path(self.desk.exchange.heap, rest)? {
            Some(path) => Ok(self.is_kept(&path)),
            None => Ok(false),
        }
    }

    /// Whether a medium stands there.
    fn stands_at(&self, rest: &str) -> Result<bool, Memory>
        ensures { IfOk result
            (λ stands. stands ≡ stands_at (beside_at self.now) (path_written rest.now)) }
    {
        match written_path(self.desk.exchange.heap, rest)? {
            Some(path) => Ok(self.has_medium(&path)),
            None => Ok(false),
        }
    }

    /// The medium under the path that the rest of a target writes, where who asks sees one.
    pub fn read(&self, rest: &str) -> Result<Option<Answer>, Memory>
        ensures { IfOk result (λ a. a
            ≡ told_there self.now (read_at (beside_at self.now) (path_written rest.now))) }
    {
        let Some(path) = written_path(self.desk.exchange.heap, rest)? else {
            return Ok(None);
        };
        let Some(medium) = self.media.seen(self.desk.reader, &path) else {
            return Ok(None);
        };
        Ok(Some(self.sent(medium)?))
    }

    /// The answer that is a medium.
    fn sent(&self, medium: &Medium) -> Result<Answer, Memory>
        ensures { IfOk result (λ a. a ≡ media_sent self.now.desk.exchange.now
            (responses.Medium medium.now.kind medium.now.bytes)) }
    {
        let exchange = self.desk.exchange;
        let manner = medium.kind.manner();
        let parts = MediumParts {
            kind: medium.kind.content_type(),
            boxed: is_boxed(manner),
            saved: is_saved(manner),
            private: exchange.manner.private,
            body: medium.bytes.get(),
        };
        let bytes = parts.write(
            exchange.heap,
            exchange.manner.head_only,
            exchange.manner.close,
        )?;
        Ok(exchange.sent(bytes))
    }

    /// What a put is answered where a path is kept.
    pub fn put(&self, rest: &str) -> Result<Option<Answer>, Memory>
        ensures { IfOk result (λ a. a ≡ told_there self.now
            (where_kept (kept_at (pages_at self.now) (beside_at self.now) (path_written rest.now))
            read_alone)) }
    {
        self.read_alone(self.kept_at(rest)?)
    }

    /// What a removal is answered where a medium stands.
    pub fn remove(&self, rest: &str) -> Result<Option<Answer>, Memory>
        ensures { IfOk result (λ a. a ≡ told_there self.now
            (where_kept (stands_at (beside_at self.now) (path_written rest.now)) read_alone)) }
    {
        self.read_alone(self.stands_at(rest)?)
    }

    /// That what stands there is only read, where it is kept.
    fn read_alone(&self, kept: bool) -> Result<Option<Answer>, Memory>
        ensures { IfOk result (λ a. a ≡ told_there self.now (where_kept kept read_alone)) }
    {
        if !kept {
            return Ok(None);
        }
        let form = ReplyForm::NotAllowed(Allow::Read);
        Ok(Some(self.desk.exchange.reply(form)?))
    }

    /// What a preview is answered where a path is kept.
    pub fn preview(&self, rest: &str) -> Result<Option<Answer>, Memory>
        ensures { IfOk result (λ a. a ≡ told_there self.now
            (where_kept (kept_at (pages_at self.now) (beside_at self.now) (path_written rest.now))
            (refused 404))) }
    {
        if !self.kept_at(rest)? {
            return Ok(None);
        }
        Ok(Some(self.desk.status(Status::NotFound)?))
    }

    /// What a move of the page that the rest of a target writes is answered where it would go to a path that is kept.
    pub fn move_page(&self, rest: &str) -> Result<Option<Answer>, Memory>
        ensures { IfOk result (λ a. a ≡ told_there self.now
            (move_to (pages_at self.now) (beside_at self.now)
            (page_of (pages_at self.now) (path_written rest.now))
            (option_map path_of
            (optional_parameter (request_at self.now.desk).target (codes "to")))
            (request_at self.now.desk))) }
    {
        let heap = self.desk.exchange.heap;
        let target = self.desk.exchange.request.target.get();
        let Some(named) = optional_parameter(heap, target, "to")? else {
            return Ok(None);
        };
        match Path::new(heap, named.get()) {
            Ok(to) => self.move_to(rest, self.is_kept(&to)),
            Err(PathError::Memory) => Err(Memory),
            Err(PathError::BadPath) => Ok(None),
        }
    }

    /// The same to a path that is kept, or to another.
    fn move_to(&self, rest: &str, kept: bool) -> Result<Option<Answer>, Memory>
        ensures { IfOk result (λ a. a ≡ told_there self.now
            (move_kept (page_of (pages_at self.now) (path_written rest.now))
            (request_at self.now.desk) kept)) }
    {
        let Some(from) = written_path(self.desk.exchange.heap, rest)? else {
            return Ok(None);
        };
        let Some(page) = self.desk.page(&from) else {
            return Ok(None);
        };
        if !kept {
            return Ok(None);
        }
        Ok(Some(self.no_move(page)?))
    }

    /// What a move of this page to a path that is kept is answered. Its conditions are judged first.
    fn no_move(&self, page: &Page) -> Result<Answer, Memory>
        ensures { IfOk result (λ a. a ≡ told_at self.now.desk
            (unless (unmet_by false (request_at self.now.desk) (Some page.now.page))
            (refused_for 409 (codes "to is kept for media")))) }
    {
        match self.desk.unmet(false, Some(page))? {
            Some(answer) => Ok(answer),
            None => self.desk.refused_for(409, "to is kept for media"),
        }
    }
}

/// Whether a browser is to keep what stands in it from running and from loading anything.
fn is_boxed(manner: Manner) -> bool
    ensures { result ≡ is_boxed manner }
{
    matches!(manner, Manner::Boxed)
}

/// Whether a browser is to save it.
fn is_saved(manner: Manner) -> bool
    ensures { result ≡ is_saved manner }
{
    matches!(manner, Manner::Saved)
}
