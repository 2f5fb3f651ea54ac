//! Puts of pages: at their source, or at the page itself.

ghost use Rattle.std.specs.Prelude.{◌≡◌, true, IfOk, None, Ok, Some, codes, option_copied, option_map, if◌then◌else◌};
ghost use Rattle.doc_http_targets.specs.WrittenPaths.{path_written};
ghost use Rattle.doc_store_readers.specs.Groups.{groups_of};
ghost use Rattle.doc_store_readers.specs.Sites.{page_at};
ghost use Rattle.doc_hub_editing.specs.EditAnswers.{groups_at, groups_put, no_room, put_at, put_page, put_reply, put_text, why_no_groups};
ghost use Rattle.doc_hub_editing.specs.EditResponses.{only_reply};
ghost use Rattle.doc_hub_editing.specs.EditSteps.{left_at, names_put, request_at, told_at, view_at};

use crate::desk::Desk;
use doc_http::status::Status;
use doc_http_targets::query::{optional_parameter, parameter};
use doc_http_targets::written_path::written_path;
use doc_hub_people::answer::Answer;
use doc_hub_people::edit::Edit;
use doc_page_parts::failure::Memory;
use doc_page_parts::path::Path;
use doc_page_parts::text::Text;
use doc_store::groups::{Groups, GroupsError};
use doc_store::page::Page;
use doc_store::store::EditError;
use std::str::from_utf8;

impl Desk<'_> {
    /// What a put at the path that the rest of a target writes is answered, with the edit that is to be made. One at the source keeps the
    /// groups of the page where it names none, and tells its tag and its groups.
    pub fn put(&self, at_source: bool, rest: &str) -> Result<Answer, Memory>
        ensures { self.now.reader.now.owner ≡ true → IfOk result (λ a. a ≡ told_at self.now
            (put_at (view_at self.now) (left_at self.now) at_source (path_written rest.now)
            (request_at self.now))) }
    {
        match written_path(self.exchange.heap, rest)? {
            Some(path) => self.put_under(at_source, path),
            None => self.refused_for(400, "this is no path of a page"),
        }
    }

    /// The same of a path.
    fn put_under(&self, at_source: bool, path: Path) -> Result<Answer, Memory>
        ensures { self.now.reader.now.owner ≡ true → IfOk result (λ a. a ≡ told_at self.now
            (put_page (view_at self.now) (left_at self.now) at_source path
            (page_at (view_at self.now).pages path)
            (groups_put at_source (page_at (view_at self.now).pages path)
            (request_at self.now).target) (request_at self.now))) }
    {
        let stands = self.page(&path);
        let Some(names) = self.names_put(at_source)? else {
            let groups = self.groups_at(stands)?;
            return self.put_page(at_source, path, stands, groups);
        };
        self.put_named(at_source, path, stands, names.get())
    }

    /// The same of groups that are named.
    fn put_named(
        &self,
        at_source: bool,
        path: Path,
        stands: Option<&Page>,
        names: &str,
    ) -> Result<Answer, Memory>
        requires { option_map (λ page. page.now.page) stands
            ≡ page_at (view_at self.now).pages path }
        ensures { self.now.reader.now.owner ≡ true → IfOk result (λ a. a ≡ told_at self.now
            (put_page (view_at self.now) (left_at self.now) at_source path
            (page_at (view_at self.now).pages path) (groups_of names.now)
            (request_at self.now))) }
    {
        match Groups::new(self.exchange.heap, names) {
            Ok(groups) => self.put_page(at_source, path, stands, groups),
            Err(GroupsError::Memory) => Err(Memory),
            Err(e) => self.refused_for(400, why_no_groups(e)),
        }
    }

    /// The groups that the query of a put names. Where it names none, those of the page are kept at the source, and at the page itself
    /// there are none then.
    fn names_put(&self, at_source: bool) -> Result<Option<Text>, Memory>
        ensures { IfOk result
            (λ names. names ≡ names_put at_source (request_at self.now).target) }
    {
        let heap = self.exchange.heap;
        let target = self.exchange.request.target.get();
        if at_source {
            return optional_parameter(heap, target, "groups");
        }
        Ok(Some(parameter(heap, target, "groups")?))
    }

    /// The same of these groups, under the path of the page that stands, or of none.
    fn put_page(
        &self,
        at_source: bool,
        path: Path,
        stands: Option<&Page>,
        groups: Groups,
    ) -> Result<Answer, Memory>
        requires { option_map (λ page. page.now.page) stands
            ≡ page_at (view_at self.now).pages path }
        ensures { self.now.reader.now.owner ≡ true → IfOk result (λ a. a ≡ told_at self.now
            (put_page (view_at self.now) (left_at self.now) at_source path
            (page_at (view_at self.now).pages path) (Ok groups) (request_at self.now))) }
    {
        match self.unmet(false, stands)? {
            Some(answer) => Ok(answer),
            None => self.put_text(at_source, path, groups),
        }
    }

    /// A copy of the groups of the page that stands, or none.
    fn groups_at(&self, stands: Option<&Page>) -> Result<Groups, Memory>
        ensures { IfOk result (λ groups.
            groups ≡ groups_at (option_map (λ page. page.now.page) stands.entry)) }
    {
        match stands {
            Some(page) => page.groups().copy(self.exchange.heap),
            None => Ok(Groups::none(self.exchange.heap)),
        }
    }

    /// The same of these groups, and of the request's body as a text.
    fn put_text(&self, at_source: bool, path: Path, groups: Groups) -> Result<Answer, Memory>
        ensures { self.now.reader.now.owner ≡ true → IfOk result (λ a. a ≡ told_at self.now
            (put_text (view_at self.now) (left_at self.now) at_source path
            (page_at (view_at self.now).pages path) groups (request_at self.now))) }
    {
        let Ok(text) = from_utf8(self.exchange.request.body.get()) else {
            return self.refused_for(400, "the text is not UTF-8");
        };
        if let Some(why) = self.no_room(&path, text) {
            return self.refused_for(507, why);
        }
        let answer = self.put_reply(at_source, self.page(&path).is_some(), &groups, text)?;
        Ok(answer.after(Edit::Put(path, groups)))
    }

    /// The reply to a put that is made.
    fn put_reply(
        &self,
        at_source: bool,
        stands: bool,
        groups: &Groups,
        text: &str,
    ) -> Result<Answer, Memory>
        ensures { IfOk result (λ a. a ≡ told_at self.now (only_reply (put_reply at_source stands
            (record { groups = groups.now; text = text.now })))) }
    {
        if at_source {
            return self.page_reply(if stands { 204 } else { 201 }, "", groups, text);
        }
        self.status(if stands {
            Status::NoContent
        } else {
            Status::Created
        })
    }

    /// Why a text has no room under a path, where it has none.
    pub(crate) fn no_room(&self, path: &Path, text: &str) -> Option<&'static str>
        ensures { self.now.reader.now.owner ≡ true
            → option_copied result ≡ no_room (view_at self.now) (left_at self.now)
            (page_at (view_at self.now).pages path.now) text.now }
    {
        let Err(e) = self.store.fits(path, text) else {
            return self.no_edit();
        };
        match e {
            EditError::TooLong => Some("the text has more than 1048576 bytes"),
            _ => Some(self.why_full()),
        }
    }

    /// Why a text that the store takes is not taken, where it isn't.
    fn no_edit(&self) -> Option<&'static str>
        ensures { option_copied result ≡ (if left_at self.now then None
            else Some (codes "no edit is left")) }
    {
        if self.takes_puts() {
            None
        } else {
            Some("no edit is left")
        }
    }

    /// Why a text that isn't too long has no room.
    fn why_full(&self) -> &'static str
        ensures { result.now ≡ (if left_at self.now then codes "10000 pages stand"
            else codes "no edit is left") }
    {
        if self.takes_puts() {
            "10000 pages stand"
        } else {
            "no edit is left"
        }
    }
}

/// What is wrong with the groups that a request names.
pub(crate) fn why_no_groups(e: GroupsError) -> &'static str
    ensures { result.now ≡ why_no_groups e }
{
    match e {
        GroupsError::BadGroup => "groups has a name that is none",
        _ => "groups has more than 32 names",
    }
}
