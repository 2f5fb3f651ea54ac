//! Moves of pages to another path.

ghost use Rattle.std.specs.Prelude.{◌≡◌, true, None, Some, IfOk, codes, is_some, option_copied, option_map};
ghost use Rattle.doc_http_targets.specs.Queries.{optional_parameter};
ghost use Rattle.doc_http_targets.specs.WrittenPaths.{path_written};
ghost use Rattle.doc_page_parts.specs.Paths.{path_of};
ghost use Rattle.doc_store_readers.specs.Sites.{page_at};
ghost use Rattle.doc_hub_editing.specs.EditAnswers.{move_done, move_named, move_page, no_alias_room, page_of};
ghost use Rattle.doc_hub_editing.specs.EditSteps.{left_at, request_at, told_at, view_at};

use crate::desk::Desk;
use doc_http::status::Status;
use doc_http_targets::query::optional_parameter;
use doc_http_targets::written_path::written_path;
use doc_hub_people::answer::Answer;
use doc_hub_people::edit::Edit;
use doc_page_parts::failure::Memory;
use doc_page_parts::path::{Path, PathError};

impl Desk<'_> {
    /// What a move of the page that the rest of a target writes is answered, with the edit that is to be made.
    pub fn move_page(&self, rest: &str) -> Result<Answer, Memory>
        ensures { self.now.reader.now.owner ≡ true → IfOk result (λ a. a ≡ told_at self.now
            (move_named (view_at self.now) (left_at self.now)
            (page_of (view_at self.now) (path_written rest.now))
            (option_map path_of
            (optional_parameter (request_at self.now).target (codes "to")))
            (request_at self.now))) }
    {
        let heap = self.exchange.heap;
        let target = self.exchange.request.target.get();
        let Some(named) = optional_parameter(heap, target, "to")? else {
            return self.refused_for(400, "to is missing");
        };
        match Path::new(heap, named.get()) {
            Ok(to) => self.move_to(rest, to),
            Err(PathError::Memory) => Err(Memory),
            Err(PathError::BadPath) => self.refused_for(400, "to is no path of a page"),
        }
    }

    /// The same to this path.
    fn move_to(&self, rest: &str, to: Path) -> Result<Answer, Memory>
        ensures { self.now.reader.now.owner ≡ true → IfOk result (λ a. a ≡ told_at self.now
            (move_page (view_at self.now) (left_at self.now)
            (page_of (view_at self.now) (path_written rest.now)) to (request_at self.now))) }
    {
        match written_path(self.exchange.heap, rest)? {
            Some(from) => self.move_from(from, to),
            None => self.status(Status::NotFound),
        }
    }

    /// The same of the page under a path, or of none.
    fn move_from(&self, from: Path, to: Path) -> Result<Answer, Memory>
        ensures { self.now.reader.now.owner ≡ true → IfOk result (λ a. a ≡ told_at self.now
            (move_page (view_at self.now) (left_at self.now)
            (page_of (view_at self.now) (Some from)) to (request_at self.now))) }
    {
        let Some(page) = self.page(&from) else {
            return self.status(Status::NotFound);
        };
        match self.unmet(false, Some(page))? {
            Some(answer) => Ok(answer),
            None => self.move_standing(from, to),
        }
    }

    /// The same of a page that stands, where no condition is against it.
    fn move_standing(&self, from: Path, to: Path) -> Result<Answer, Memory>
        requires { is_some (page_at (view_at self.now).pages from) ≡ true }
        ensures { self.now.reader.now.owner ≡ true → IfOk result (λ a. a ≡ told_at self.now
            (move_done (view_at self.now) (left_at self.now) from to)) }
    {
        if self.page(&to).is_some() {
            return self.refused_for(409, "a page stands at to");
        }
        if let Some(why) = self.no_alias_room(&from, &to) {
            return self.refused_for(507, why);
        }
        Ok(self.status(Status::NoContent)?.after(Edit::Move(from, to)))
    }

    /// Why a move has no room, where it has none, of a page that stands to a path where none does.
    fn no_alias_room(&self, from: &Path, to: &Path) -> Option<&'static str>
        requires stands { is_some (page_at (view_at self.now).pages from.now) ≡ true }
        requires free { page_at (view_at self.now).pages to.now ≡ None }
        ensures { self.now.reader.now.owner ≡ true → option_copied result
            ≡ no_alias_room (view_at self.now) (left_at self.now) to.now }
    {
        if !self.takes_puts() {
            return Some("no edit is left");
        }
        if self.store.may_move(from, to).is_err() {
            return Some("10000 aliases stand");
        }
        None
    }
}
