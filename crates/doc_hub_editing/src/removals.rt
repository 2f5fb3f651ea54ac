//! Removals of pages.

ghost use Rattle.std.specs.Prelude.{◌≡◌, IfOk};
ghost use Rattle.doc_http_targets.specs.WrittenPaths.{path_written};
ghost use Rattle.doc_hub_editing.specs.EditAnswers.{page_of, remove_page};
ghost use Rattle.doc_hub_editing.specs.EditSteps.{request_at, told_at, view_at};

use crate::desk::Desk;
use doc_http::status::Status;
use doc_http_targets::written_path::written_path;
use doc_hub_people::answer::Answer;
use doc_hub_people::edit::Edit;
use doc_page_parts::failure::Memory;

impl Desk<'_> {
    /// What a removal of the page that the rest of a target writes is answered, with the edit that is to be made.
    pub fn remove(&self, rest: &str) -> Result<Answer, Memory>
        ensures { IfOk result (λ a. a ≡ told_at self.now (remove_page
            (page_of (view_at self.now) (path_written rest.now)) (request_at self.now))) }
    {
        let Some(path) = written_path(self.exchange.heap, rest)? else {
            return self.status(Status::NotFound);
        };
        let Some(page) = self.page(&path) else {
            return self.status(Status::NotFound);
        };
        if let Some(answer) = self.unmet(false, Some(page))? {
            return Ok(answer);
        }
        Ok(self.status(Status::NoContent)?.after(Edit::Remove(path)))
    }
}
