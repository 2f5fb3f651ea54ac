//! What an owner's request is about, and how replies to it are made.

ghost use Rattle.std.specs.Prelude.{◌≡◌, [], IfOk, Some, None, option_map};
ghost use Rattle.doc_http_replies.specs.Manners.{edit_with};
ghost use Rattle.doc_http_replies.specs.ReplyForms.{code_of};
ghost use Rattle.doc_store.specs.Store.{IsStore};
ghost use Rattle.doc_store_readers.specs.Sites.{page_at};
ghost use Rattle.doc_hub_editing.specs.EditResponses.{Told, only_reply, page_reply, refused, refused_for};
ghost use Rattle.doc_hub_editing.specs.EditSteps.{left_at, told_at, view_at};

use crate::names::names_text;
use doc_http::status::Status;
use doc_http_replies::edit_reply::EditParts;
use doc_hub_people::answer::Answer;
use doc_hub_people::exchange::Exchange;
use doc_page_parts::failure::Memory;
use doc_page_parts::path::Path;
use doc_shelf_pages::visible::visible_page;
use doc_store::groups::Groups;
use doc_store::page::Page;
use doc_store::reader::Reader;
use doc_store::store::Store;
use doc_store_tags::page_tag::PageTag;

/// A request of an owner, and the pages that it is about.
#[derive(Clone, Copy)]
pub struct Desk<'a> {
    pub exchange: &'a Exchange<'a>,
    pub store: &'a Store,
    /// Who asks.
    pub reader: &'a Reader,
}

impl<'a> Desk<'a> {
    /// The page that stands under a path.
    pub fn page(&self, path: &Path) -> Option<&'a Page>
        ensures { option_map (λ page. page.now.page) result
            ≡ page_at (view_at self.now).pages path.now }
    {
        visible_page(self.store, self.reader, path)
    }

    /// Whether a put is taken, of which the groups of a page and a move of it are two: the server takes puts, and a stamp is left.
    pub(crate) fn takes_puts(&self) -> bool
        ensures taken { result ≡ left_at self.now }
        ensures store { IsStore self.now.store.now }
    {
        self.store.next_stamp().is_some() && self.exchange.takes_puts
    }

    /// The answer that says no more than a status.
    pub fn status(&self, status: Status) -> Result<Answer, Memory>
        ensures { IfOk result (λ a. a ≡ told_at self.now (refused (code_of status))) }
    {
        self.exchange.status(status)
    }

    /// The answer that says why a request is refused, beside its code.
    pub fn refused_for(&self, code: u16, why: &str) -> Result<Answer, Memory>
        ensures { IfOk result (λ a. a ≡ told_at self.now (refused_for code why.now)) }
    {
        self.told(EditParts {
            code,
            text: &[],
            why: Some(why),
            tag: None,
            groups: None,
        })
    }

    /// The answer that tells the tag and the groups of a page with these groups and this text; of 200 with this content.
    pub fn page_reply(
        &self,
        code: u16,
        content: &str,
        groups: &Groups,
        text: &str,
    ) -> Result<Answer, Memory>
        ensures { IfOk result (λ a. a ≡ told_at self.now (only_reply (page_reply code content.now
            (record { groups = groups.now; text = text.now })))) }
    {
        let tag = PageTag::of(groups, text);
        let names = names_text(self.exchange.heap, groups)?;
        self.told_page(code, content, tag.text(), names.get())
    }

    /// The answer that tells this tag and these names of groups; of 200 with this content.
    fn told_page<'x>(
        &self,
        code: u16,
        content: &'x str,
        tag: &'x str,
        groups: &'x str,
    ) -> Result<Answer, Memory>
        ensures { IfOk result (λ a. a ≡ told_at self.now (only_reply (Told (record {
          code = code;
          text = content.now;
          why = None;
          tag = Some tag.now;
          groups = Some groups.now;
        })))) }
    {
        self.told(EditParts {
            code,
            text: content.as_bytes(),
            why: None,
            tag: Some(tag),
            groups: Some(groups),
        })
    }

    /// The answer that is a reply with these parts.
    pub fn told(&self, parts: EditParts<'_>) -> Result<Answer, Memory>
        ensures { IfOk result
            (λ a. a ≡ told_at self.now (only_reply (Told (edit_with parts.entry)))) }
    {
        let manner = self.exchange.manner;
        let bytes = parts.write(self.exchange.heap, manner.head_only, manner.close)?;
        Ok(self.exchange.sent(bytes))
    }
}
