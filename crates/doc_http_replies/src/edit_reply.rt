//! Replies to owners who edit pages, or read their source.

ghost use Rattle.std.specs.Prelude.{◌≡◌, ◌++◌, false, length, IfOk, OnOk, string_bytes, codes, option_copied};
ghost use Rattle.doc_http_replies.specs.EditReplies.{edit_bytes, edit_content, edit_guards, edit_lines, groups_line, has_content as has, tag_line, why_line};
ghost use Rattle.doc_http_replies.specs.Heads.{head_of};
ghost use Rattle.doc_http_replies.specs.Manners.{edit_with};
ghost use Rattle.doc_http_replies.specs.Replies.{content_type, status_of, where_true};
ghost use Rattle.doc_http_replies.specs.PeopleReplies.{typed_lines};

use crate::ending::with_content;
use crate::lines::{
    HEAD_ROOM, push_cache, push_close, push_field, push_length, push_nosniff, push_status,
    push_status_line, status_len,
};
use doc_page_parts::bytes::Bytes;
use doc_page_parts::failure::Memory;
use doc_page_parts::heap::{Heap, String};

/// A reply to an owner who edits pages or reads their source, its parts borrowed. What is text here is written as it is.
#[derive(Clone, Copy)]
pub struct EditParts<'a> {
    pub code: u16,
    /// The content of a 200. The other replies have one of their own, or none.
    pub text: &'a [u8],
    /// With codes other than 200, what there is to say beside the status.
    pub why: Option<&'a str>,
    /// The entity tag of the page, with its quotes (RFC 9110, section 8.8.3).
    pub tag: Option<&'a str>,
    /// The names of the groups that the page is for, which may be none.
    pub groups: Option<&'a str>,
}

impl EditParts<'_> {
    /// The bytes of the reply: its status line, Content-Type and Content-Length, ETag and Docs-Groups where they are told,
    /// X-Content-Type-Options (200), Cache-Control (200 and 304), `Connection: close` where `close`, an empty line and the content,
    /// which `head_only` leaves out. The content is the text of a 200, and else a line of the code and its reason and one that says
    /// why. A 204 and a 304 have neither type nor length nor content. The text is copied once.
    #[tactic(auto, unfolding(crate::specs::EditReplies::edit_bytes))]
    pub fn write(&self, heap: Heap, head_only: bool, close: bool) -> Result<Bytes, Memory>
        ensures { IfOk result
            (λ bytes. bytes ≡ edit_bytes (edit_with self.now) head_only close) }
    {
        let mut out = String::with_capacity(heap, self.room(head_only))?;
        self.push_head(&mut out, close)?;
        if head_only || !has_content(self.code) {
            return Ok(Bytes::new(out.into_bytes()));
        }
        if self.code == 200 {
            return with_content(out, self.text, false);
        }
        self.push_told(&mut out)?;
        Ok(Bytes::new(out.into_bytes()))
    }

    /// Room for the reply, for which no growth is needed as it is written.
    fn room(&self, head_only: bool) -> usize {
        let content = if head_only { 0 } else { self.content_len() };
        let tag = self.tag.map_or(0, |tag| tag.len());
        let groups = self.groups.map_or(0, |groups| groups.len());
        HEAD_ROOM
            .saturating_add(tag)
            .saturating_add(groups)
            .saturating_add(content)
    }

    /// Adds the head, with the empty line that ends it.
    fn push_head(&self, out: &mut String, close: bool) -> Result<(), Memory>
        ensures { OnOk result (string_bytes out.new ≡ string_bytes out.old
            ++ head_of self.now.code (edit_lines (edit_with self.now) close)) }
    {
        push_status_line(out, self.code)?;
        self.push_lines(out, close)?;
        out.push_str("\r\n")?;
        Ok(())
    }

    /// Adds the field lines.
    fn push_lines(&self, out: &mut String, close: bool) -> Result<(), Memory>
        ensures { OnOk result (string_bytes out.new
            ≡ string_bytes out.old ++ edit_lines (edit_with self.now) close) }
    {
        self.push_content_lines(out)?;
        push_tag(out, self.tag)?;
        push_groups(out, self.groups)?;
        push_edit_guards(out, self.code)?;
        push_close(out, close)
    }

    /// Adds what says of the content its type and its length.
    #[tactic(auto, unfolding(crate::specs::PeopleReplies::typed_lines))]
    fn push_content_lines(&self, out: &mut String) -> Result<(), Memory>
        ensures { OnOk result (string_bytes out.new ≡ string_bytes out.old
            ++ where_true (has self.now.code)
            (typed_lines (content_type false) (edit_content (edit_with self.now)))) }
    {
        if !has_content(self.code) {
            return Ok(());
        }
        push_field(out, "Content-Type", "text/plain; charset=utf-8")?;
        push_length(out, self.content_len())
    }

    /// The length of the content, whether it is written or not.
    fn content_len(&self) -> usize
        ensures { result ≡ length (edit_content (edit_with self.now)) }
    {
        if self.code == 200 {
            return self.text.len();
        }
        match self.why {
            Some(why) => told_len(self.code, why),
            None => status_len(self.code) + 1,
        }
    }

    /// Adds the content of a reply other than 200.
    fn push_told(&self, out: &mut String) -> Result<(), Memory>
        ensures { OnOk result (string_bytes out.new ≡ string_bytes out.old
            ++ (status_of self.now.code ++ codes "\n" ++ why_line (option_copied self.now.why))) }
    {
        push_status(out, self.code)?;
        out.push_str("\n")?;
        push_why(out, self.why)
    }
}

/// The length of a content that says why.
fn told_len(code: u16, why: &str) -> usize
    ensures { result ≡ length (status_of code ++ codes "\n" ++ (why.now ++ codes "\n")) }
{
    status_len(code) + 2 + why.len()
}

/// Whether a reply of this code has a content.
fn has_content(code: u16) -> bool
    ensures { result ≡ has code }
{
    code != 204 && code != 304
}

/// Adds why, on a line of its own.
fn push_why(out: &mut String, why: Option<&str>) -> Result<(), Memory>
    ensures { OnOk result (string_bytes out.new
        ≡ string_bytes out.old ++ why_line (option_copied why.entry)) }
{
    if let Some(why) = why {
        out.push_str(why)?;
        out.push_str("\n")?;
    }
    Ok(())
}

/// Adds which text of the page is told of.
fn push_tag(out: &mut String, tag: Option<&str>) -> Result<(), Memory>
    ensures { OnOk result (string_bytes out.new
        ≡ string_bytes out.old ++ tag_line (option_copied tag.entry)) }
{
    match tag {
        Some(tag) => push_field(out, "ETag", tag),
        None => Ok(()),
    }
}

/// Adds the groups that the page is for.
fn push_groups(out: &mut String, groups: Option<&str>) -> Result<(), Memory>
    ensures { OnOk result (string_bytes out.new
        ≡ string_bytes out.old ++ groups_line (option_copied groups.entry)) }
{
    match groups {
        Some(names) => push_field(out, "Docs-Groups", names),
        None => Ok(()),
    }
}

/// Adds what keeps a text to its owner and to its type.
fn push_edit_guards(out: &mut String, code: u16) -> Result<(), Memory>
    ensures { OnOk result (string_bytes out.new ≡ string_bytes out.old ++ edit_guards code) }
{
    if code == 200 {
        push_nosniff(out)?;
        return push_cache(out);
    }
    if code == 304 {
        return push_cache(out);
    }
    Ok(())
}
