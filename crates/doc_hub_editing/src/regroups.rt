//! Changes of the groups of a page, whose text stays.

ghost use Rattle.std.specs.Prelude.{◌≡◌, true, Some, IfOk, option_map, codes};
ghost use Rattle.doc_http_targets.specs.Queries.{optional_parameter};
ghost use Rattle.doc_http_targets.specs.WrittenPaths.{path_written};
ghost use Rattle.doc_store_readers.specs.Groups.{groups_of};
ghost use Rattle.doc_store_readers.specs.Sites.{page_at};
ghost use Rattle.doc_hub_editing.specs.EditAnswers.{no_room, page_of, regroup_done, regroup_named, regroup_page};
ghost use Rattle.doc_hub_editing.specs.EditResponses.{full_by, unless};
ghost use Rattle.doc_hub_editing.specs.EditSteps.{left_at, request_at, told_at, view_at};

use crate::desk::Desk;
use crate::puts::why_no_groups;
use doc_http::status::Status;
use doc_http_targets::query::optional_parameter;
use doc_http_targets::written_path::written_path;
use doc_hub_people::answer::Answer;
use doc_hub_people::edit::Edit;
use doc_page_parts::failure::Memory;
use doc_page_parts::path::Path;
use doc_store::groups::{Groups, GroupsError};
use doc_store::page::Page;

impl Desk<'_> {
    /// What a change of the groups of the page that the rest of a target writes is answered, with the edit that is to be made.
    pub fn regroup(&self, rest: &str) -> Result<Answer, Memory>
        ensures { self.now.reader.now.owner ≡ true → IfOk result (λ a. a ≡ told_at self.now
            (regroup_named (view_at self.now) (left_at self.now)
            (page_of (view_at self.now) (path_written rest.now))
            (option_map groups_of
            (optional_parameter (request_at self.now).target (codes "groups")))
            (request_at self.now))) }
    {
        let heap = self.exchange.heap;
        let target = self.exchange.request.target.get();
        let Some(names) = optional_parameter(heap, target, "groups")? else {
            return self.refused_for(400, "groups is missing");
        };
        match Groups::new(heap, names.get()) {
            Ok(groups) => self.regroup_page(rest, groups),
            Err(GroupsError::Memory) => Err(Memory),
            Err(e) => self.refused_for(400, why_no_groups(e)),
        }
    }

    /// The same of these groups.
    fn regroup_page(&self, rest: &str, groups: Groups) -> Result<Answer, Memory>
        ensures { self.now.reader.now.owner ≡ true → IfOk result (λ a. a ≡ told_at self.now
            (regroup_page (view_at self.now) (left_at self.now)
            (page_of (view_at self.now) (path_written rest.now)) groups (request_at self.now))) }
    {
        match written_path(self.exchange.heap, rest)? {
            Some(path) => self.regroup_under(path, groups),
            None => self.status(Status::NotFound),
        }
    }

    /// The same of the page under a path, or of none.
    fn regroup_under(&self, path: Path, groups: Groups) -> Result<Answer, Memory>
        ensures { self.now.reader.now.owner ≡ true → IfOk result (λ a. a ≡ told_at self.now
            (regroup_page (view_at self.now) (left_at self.now)
            (page_of (view_at self.now) (Some path)) groups (request_at self.now))) }
    {
        let Some(page) = self.page(&path) else {
            return self.status(Status::NotFound);
        };
        match self.unmet(false, Some(page))? {
            Some(answer) => Ok(answer),
            None => self.regroup_standing(path, groups, page),
        }
    }

    /// The same of the page that stands there, where no condition is against it.
    fn regroup_standing(&self, path: Path, groups: Groups, page: &Page) -> Result<Answer, Memory>
        requires { page_at (view_at self.now).pages path ≡ Some page.now.page }
        ensures { self.now.reader.now.owner ≡ true → IfOk result (λ a. a ≡ told_at self.now
            (unless (full_by (no_room (view_at self.now) (left_at self.now)
            (Some page.now.page) page.now.page.text))
            (regroup_done path page.now.page groups))) }
    {
        if let Some(why) = self.no_room(&path, page.text()) {
            return self.refused_for(507, why);
        }
        let answer = self.page_reply(204, "", &groups, page.text())?;
        Ok(answer.after(Edit::Regroup(path, groups)))
    }
}
