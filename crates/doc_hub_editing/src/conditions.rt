//! The conditions of requests that read a source or edit a page (RFC 9110, section 13).

ghost use Rattle.std.specs.Prelude.{◌≡◌, IfOk, option_copied, option_map};
ghost use Rattle.doc_hub_editing.specs.EditResponses.{only_reply, reply_to_verdict, tag_at, unchanged_reply, unmet_by, unmet_reply};
ghost use Rattle.doc_hub_editing.specs.EditSteps.{request_at, told_at};

use crate::desk::Desk;
use doc_http::request::Request;
use doc_http_conditions::conditions::{Conditions, judge};
use doc_http_conditions::verdict::Verdict;
use doc_http_replies::edit_reply::EditParts;
use doc_hub_people::answer::Answer;
use doc_page_parts::bytes::Bytes;
use doc_page_parts::failure::Memory;
use doc_store::page::Page;
use doc_store_tags::page_tag::PageTag;

impl Desk<'_> {
    /// The answer where the conditions of the request don't hold of the page that stands, or of none. `reads`: its method is GET or
    /// HEAD. Without conditions the page's tag isn't computed.
    pub fn unmet(&self, reads: bool, stands: Option<&Page>) -> Result<Option<Answer>, Memory>
        ensures { IfOk result (λ answer. answer
            ≡ option_map (λ reply. told_at self.now (only_reply reply))
            (unmet_by reads (request_at self.now)
            (option_map (λ page. page.now.page) stands.entry))) }
    {
        let conditions = conditions_of(self.exchange.request);
        if conditions.if_match.is_none() && conditions.if_none_match.is_none() {
            return Ok(None);
        }
        let tag = tag_of(stands);
        let verdict = judge(reads, &conditions, bytes_of(&tag));
        self.by_verdict(verdict, text_of(&tag))
    }

    /// The answer by what the conditions come to, and the tag of the page that stands.
    fn by_verdict(&self, verdict: Verdict, tag: Option<&str>) -> Result<Option<Answer>, Memory>
        ensures { IfOk result (λ answer. answer
            ≡ option_map (λ reply. told_at self.now (only_reply reply))
            (reply_to_verdict verdict (option_copied tag.entry))) }
    {
        match verdict {
            Verdict::Holds => Ok(None),
            Verdict::Unread(field) => Ok(Some(self.refused_for(400, field.why())?)),
            Verdict::Fails(failure) => Ok(Some(self.unmet_for(failure.why(), tag)?)),
            Verdict::Unchanged => Ok(Some(self.unchanged(tag)?)),
        }
    }

    /// The answer that a condition fails, with the tag of the page that stands.
    fn unmet_for<'x>(&self, why: &'x str, tag: Option<&'x str>) -> Result<Answer, Memory>
        ensures { IfOk result (λ a. a ≡ told_at self.now
            (only_reply (unmet_reply why.now (option_copied tag.entry)))) }
    {
        self.told(EditParts {
            code: 412,
            text: &[],
            why: Some(why),
            tag,
            groups: None,
        })
    }

    /// The answer that nothing is new of the page that stands.
    fn unchanged(&self, tag: Option<&str>) -> Result<Answer, Memory>
        ensures { IfOk result (λ a. a ≡ told_at self.now
            (only_reply (unchanged_reply (option_copied tag.entry)))) }
    {
        self.told(EditParts {
            code: 304,
            text: &[],
            why: None,
            tag,
            groups: None,
        })
    }
}

/// The conditions of a request.
fn conditions_of(request: &Request) -> Conditions<'_>
    ensures if_match { option_copied result.if_match ≡ request.now.if_match }
    ensures if_none_match { option_copied result.if_none_match ≡ request.now.if_none_match }
{
    Conditions {
        if_match: value_of(&request.if_match),
        if_none_match: value_of(&request.if_none_match),
    }
}

/// The bytes of a field, where it is sent.
fn value_of(value: &Option<Bytes>) -> Option<&[u8]>
    ensures { option_copied result ≡ value.now }
{
    match value {
        Some(value) => Some(value.get()),
        None => None,
    }
}

/// The tag of a page, where one stands.
fn tag_of(page: Option<&Page>) -> Option<PageTag>
    ensures { result ≡ tag_at (option_map (λ page. page.now.page) page.entry) }
{
    match page {
        Some(page) => Some(PageTag::of_page(page)),
        None => None,
    }
}

/// Its bytes.
fn bytes_of(tag: &Option<PageTag>) -> Option<&[u8]>
    ensures { option_copied result ≡ tag.now }
{
    match tag {
        Some(tag) => Some(tag.bytes()),
        None => None,
    }
}

/// Its text.
fn text_of(tag: &Option<PageTag>) -> Option<&str>
    ensures { option_copied result ≡ tag.now }
{
    match tag {
        Some(tag) => Some(tag.text()),
        None => None,
    }
}
