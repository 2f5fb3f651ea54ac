//! The form that edits a page in a browser.

ghost use Rattle.std.specs.Prelude.{◌≡◌, ◌++◌, ◌-◌, IfOk, None, Some, codes, length, slice_get, true};
ghost use Rattle.doc_http_targets.specs.WrittenFolders.{is_slash_at, without_last};
ghost use Rattle.doc_http_targets.specs.WrittenPaths.{path_written};
ghost use Rattle.doc_page_encoding.specs.Encoding.{encoded_path};
ghost use Rattle.doc_page_parts.specs.Paths.{is_path};
ghost use Rattle.doc_people_editing.specs.Policies.{edit_policy};
ghost use Rattle.doc_shelf_pages.specs.ViewLaws.{seen_in};
ghost use Rattle.doc_store_readers.specs.Sites.{goal_in, page_at};
ghost use Rattle.doc_hub_people.specs.VisitSteps.{offers_of};
ghost use Rattle.doc_hub_editing.specs.EditAnswers.{begins_path, folder_begun, form_elsewhere, form_of, form_or_goal, guarded_page, if_folder_path, new_form, not_found, open_form};
ghost use Rattle.doc_hub_editing.specs.EditResponses.{Shown, only_reply};
ghost use Rattle.doc_hub_editing.specs.EditSteps.{editing_sent};

use crate::names::names_text;
use doc_http::status::Status;
use doc_http_replies::people_reply::PeopleParts;
use doc_http_targets::written_folder::written_folder;
use doc_http_targets::written_path::written_path;
use doc_hub_people::Shelf;
use doc_hub_people::answer::Answer;
use doc_hub_people::goals::goal_answer;
use doc_hub_people::visit::Visit;
use doc_media::media::Media;
use doc_page::renderer::Renderer;
use doc_page_parts::failure::Memory;
use doc_page_parts::heap::{Heap, String};
use doc_page_parts::path::{Path, PathError};
use doc_page_parts::sight::Sight;
use doc_page_parts::text::Text;
use doc_people_editing::edit_page::{begin_body, edit_body};
use doc_people_editing::new_page::new_body;
use doc_people_editing::policies::EDIT_POLICY;
use doc_resolve::encoding::push_encoded_path;
use doc_shelf_pages::visible::visible_page;
use doc_store::page::Page;
use doc_store::reader::Reader;
use doc_store_tags::page_tag::PageTag;

/// A request of an owner for a form, and the pages that it is about.
#[derive(Clone, Copy)]
pub struct Forms<'a, R: Renderer + Drop> {
    pub visit: Visit<'a>,
    pub shelf: &'a Shelf<R>,
    pub reader: &'a Reader,
    pub media: &'a Option<Media>,
    /// Whether the request is one for people.
    pub for_people: bool,
}

impl<R: Renderer + Drop> Forms<'_, R> {
    /// The form of the page that the rest of a target writes, or where the alias leads that stands there, or a form that begins a page
    /// there; or where the rest is a folder's, the form that asks for a path in it.
    pub fn open(&self, rest: &str) -> Result<Answer, Memory>
        ensures { IfOk result (λ a. a ≡ editing_sent self.now.visit.exchange.now (open_form
            (R.page self.now.shelf.now.0) self.now.visit.browse.now (offers_of self.now.visit)
            (seen_in self.now.shelf.now.1 self.now.reader.now) self.now.for_people rest.now)) }
    {
        if begins_path(rest) {
            return self.new_form(folder_begun(self.visit.exchange.heap, rest)?);
        }
        match written_path(self.visit.exchange.heap, rest)? {
            Some(path) => self.form_at(&path),
            None => self.not_found(),
        }
    }

    /// The form that asks for the path of a new page, in a folder.
    fn new_form(&self, folder: Option<Text>) -> Result<Answer, Memory>
        ensures { IfOk result (λ a. a ≡ editing_sent self.now.visit.exchange.now (new_form
            (R.page self.now.shelf.now.0) self.now.visit.browse.now (offers_of self.now.visit)
            (seen_in self.now.shelf.now.1 self.now.reader.now) self.now.for_people folder)) }
    {
        let Some(folder) = folder else {
            return self.not_found();
        };
        let view = self.shelf.view(self.reader, self.media);
        let body = new_body(self.visit.frame(), &view, folder.get())?;
        self.guarded_page(&body)
    }

    /// The form at a path.
    fn form_at(&self, path: &Path) -> Result<Answer, Memory>
        ensures { IfOk result (λ a. a ≡ editing_sent self.now.visit.exchange.now (only_reply
            (form_or_goal (R.page self.now.shelf.now.0) self.now.visit.browse.now
            (offers_of self.now.visit) (seen_in self.now.shelf.now.1 self.now.reader.now)
            self.now.for_people path.now
            (page_at (seen_in self.now.shelf.now.1 self.now.reader.now).pages path.now)
            (goal_in (seen_in self.now.shelf.now.1 self.now.reader.now) path.now)))) }
    {
        if let Some(page) = visible_page(self.shelf.store(), self.reader, path) {
            return self.form_of(path, page);
        }
        let sight = self.shelf.store().sight(self.reader);
        match sight.goal(path) {
            Some(goal) => self.elsewhere(path, goal),
            None => self.begin(path),
        }
    }

    /// The form of a page that stands.
    fn form_of(&self, path: &Path, page: &Page) -> Result<Answer, Memory>
        ensures { IfOk result (λ a. a ≡ editing_sent self.now.visit.exchange.now (only_reply
            (form_of (R.page self.now.shelf.now.0) self.now.visit.browse.now
            (offers_of self.now.visit) (seen_in self.now.shelf.now.1 self.now.reader.now)
            path.now page.now.page))) }
    {
        let tag = PageTag::of_page(page);
        let names = names_text(self.visit.exchange.heap, page.groups())?;
        let view = self.shelf.view(self.reader, self.media);
        let body = edit_body(
            self.visit.frame(),
            &view,
            path.text(),
            page.text(),
            names.get(),
            tag.text(),
        )?;
        self.guarded_page(&body)
    }

    /// The form that begins a page.
    fn begin(&self, path: &Path) -> Result<Answer, Memory>
        ensures { IfOk result (λ a. a ≡ editing_sent self.now.visit.exchange.now (only_reply
            (form_or_goal (R.page self.now.shelf.now.0) self.now.visit.browse.now
            (offers_of self.now.visit) (seen_in self.now.shelf.now.1 self.now.reader.now)
            self.now.for_people path.now None None))) }
    {
        let view = self.shelf.view(self.reader, self.media);
        let body = begin_body(self.visit.frame(), &view, path.text())?;
        self.guarded_page(&body)
    }

    /// The form stands where the alias leads that stands at the path.
    fn elsewhere(&self, path: &Path, goal: &Path) -> Result<Answer, Memory>
        requires { goal_in (seen_in self.now.shelf.now.1 self.now.reader.now) path.now
            ≡ Some goal.now }
        ensures { IfOk result (λ a. a ≡ editing_sent self.now.visit.exchange.now
            (only_reply (form_elsewhere self.now.visit.browse.now self.now.for_people goal.now))) }
    {
        if !self.for_people {
            let sight = self.shelf.store().sight(self.reader);
            return goal_answer(self.visit.exchange, "/edit/", path, &sight);
        }
        let address = form_address(self.visit.exchange.heap, goal)?;
        self.visit.moved(address.get())
    }

    /// There is nothing to be edited.
    fn not_found(&self) -> Result<Answer, Memory>
        ensures { IfOk result (λ a. a ≡ editing_sent self.now.visit.exchange.now (not_found
            (R.page self.now.shelf.now.0) self.now.visit.browse.now (offers_of self.now.visit)
            (seen_in self.now.shelf.now.1 self.now.reader.now) self.now.for_people)) }
    {
        if self.for_people {
            self.visit
                .not_found(&self.shelf.view(self.reader, self.media), None)
        } else {
            self.visit.exchange.status(Status::NotFound)
        }
    }

    /// The answer that is a page whose script may run.
    fn guarded_page(&self, body: &Text) -> Result<Answer, Memory>
        ensures { IfOk result (λ a. a ≡ editing_sent self.now.visit.exchange.now
            (only_reply (Shown (guarded_page edit_policy body.now)))) }
    {
        self.visit.answer(PeopleParts {
            code: 200,
            location: None,
            realm: None,
            policy: page_policy(),
            body: body.get().as_bytes(),
        })
    }
}

/// What a page with the script may do.
#[tactic(auto, unfolding(doc_people_editing::specs::Policies::edit_policy))]
fn page_policy() -> &'static str
    ensures { result.now ≡ edit_policy }
{
    EDIT_POLICY
}

/// The address of the form of a page.
fn form_address(heap: Heap, path: &Path) -> Result<Text, Memory>
    ensures { IfOk result (λ text. text ≡ codes "/edit/" ++ encoded_path path.now) }
{
    let mut address = String::from_str(heap, "/edit/")?;
    push_encoded_path(&mut address, path.text())?;
    Ok(Text::new(address))
}

/// Whether the rest of a target asks for the path of a new page.
fn begins_path(rest: &str) -> bool
    ensures { result ≡ begins_path rest.now }
{
    match rest.as_bytes().last() {
        None => true,
        Some(byte) => *byte == b'/',
    }
}

/// The folder that the rest of a target writes, where it is the beginning of a path.
fn folder_begun(heap: Heap, rest: &str) -> Result<Option<Text>, Memory>
    ensures { IfOk result (λ folder. folder ≡ folder_begun rest.now) }
{
    if rest.is_empty() {
        return Ok(Some(Text::new(String::new(heap))));
    }
    match written_folder(heap, rest)? {
        Some(folder) => if_folder_path(heap, folder),
        None => Ok(None),
    }
}

/// The folder, where it is a path with a `/` behind it.
fn if_folder_path(heap: Heap, folder: Text) -> Result<Option<Text>, Memory>
    requires { is_slash_at (slice_get folder (length folder - 1)) ≡ true }
    ensures { IfOk result (λ found. found ≡ if_folder_path (Some folder)) }
{
    if is_folder_path(heap, folder.get())? {
        Ok(Some(folder))
    } else {
        Ok(None)
    }
}

/// Whether a folder is a path with a `/` behind it.
fn is_folder_path(heap: Heap, folder: &str) -> Result<bool, Memory>
    requires { is_slash_at (slice_get folder.now (length folder.now - 1)) ≡ true }
    ensures { IfOk result (λ is. is ≡ is_path (without_last folder.now)) }
{
    let Some(front) = folder.strip_suffix('/') else {
        unreachable!()
    };
    match Path::new(heap, front) {
        Ok(_) => Ok(true),
        Err(PathError::Memory) => Err(Memory),
        Err(PathError::BadPath) => Ok(false),
    }
}
