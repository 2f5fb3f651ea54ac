//! The text of a page, as it was put.

ghost use Rattle.std.specs.Prelude.{◌≡◌, IfOk};
ghost use Rattle.doc_http_targets.specs.WrittenPaths.{path_written};
ghost use Rattle.doc_store_readers.specs.Sites.{goal_in, page_at};
ghost use Rattle.doc_hub_editing.specs.EditAnswers.{read_source, source_or_goal};
ghost use Rattle.doc_hub_editing.specs.EditSteps.{request_at, told_at, view_at};

use crate::desk::Desk;
use doc_http::status::Status;
use doc_http_targets::written_path::written_path;
use doc_hub_people::answer::Answer;
use doc_hub_people::goals::goal_answer;
use doc_page_parts::failure::Memory;
use doc_page_parts::path::Path;

impl Desk<'_> {
    /// The text of the page that the rest of a target writes, with its tag and its groups; or where the alias leads that stands there.
    pub fn read_source(&self, rest: &str) -> Result<Answer, Memory>
        ensures { IfOk result (λ a. a ≡ told_at self.now
            (read_source (view_at self.now) (path_written rest.now) (request_at self.now))) }
    {
        match written_path(self.exchange.heap, rest)? {
            Some(path) => self.source_or_goal(&path),
            None => self.status(Status::NotFound),
        }
    }

    /// The same of a path.
    fn source_or_goal(&self, path: &Path) -> Result<Answer, Memory>
        ensures { IfOk result (λ a. a ≡ told_at self.now (source_or_goal
            (page_at (view_at self.now).pages path.now) (goal_in (view_at self.now) path.now)
            (request_at self.now))) }
    {
        let Some(page) = self.page(path) else {
            let sight = self.store.sight(self.reader);
            return goal_answer(self.exchange, "/source/", path, &sight);
        };
        match self.unmet(true, Some(page))? {
            Some(answer) => Ok(answer),
            None => self.page_reply(200, page.text(), page.groups(), page.text()),
        }
    }
}
