//! A reply whose parts are borrowed, as bytes.

ghost use Rattle.std.specs.Prelude.{◌≡◌, ◌++◌, length, IsTrue, IfOk, OnOk, string_bytes, option_copied};
ghost use Rattle.doc_http_replies.specs.Heads.{dressed_bytes, dressed_head, dressed_lines, is_html};
ghost use Rattle.doc_http_replies.specs.Manners.{dress_of};
ghost use Rattle.doc_http_replies.specs.Replies.{is_reply_code, content_of, content_lines, allow_line, content_type as type_of};
ghost use Rattle.doc_http_replies.specs.ReplyForms.{content_reply, plain_reply};
ghost use Rattle.doc_http_replies.specs.ReplySteps.{reply_with};

use crate::challenges::{challenge_room, push_challenges};
use crate::ending::with_content;
use crate::lines::{
    GUARD_ROOM, HEAD_ROOM, PRIVATE_ROOM, push_close, push_field, push_guards, push_length,
    push_location, push_status, push_status_line, reason,
};
use crate::manner::Manner;
use crate::reply::Allow;
use doc_page_parts::bytes::Bytes;
use doc_page_parts::failure::Memory;
use doc_page_parts::heap::{Heap, String};

/// The bytes of a line of content round the reason: three digits, a space and a line feed.
const CODE_ROOM: usize = 5;

/// The parts of a `Reply`.
#[derive(Clone, Copy)]
pub struct ReplyParts<'a> {
    pub code: u16,
    pub html: bool,
    pub allow: Option<Allow>,
    pub location: Option<&'a str>,
    pub body: &'a [u8],
}

impl<'a> ReplyParts<'a> {
    /// A reply with a body of its own.
    pub fn of_content(html: bool, body: &'a [u8]) -> Self
        ensures parts { reply_with result ≡ content_reply html body.now }
        ensures code { result.code ≡ 200 }
    {
        ReplyParts {
            code: 200,
            html,
            allow: None,
            location: None,
            body,
        }
    }

    /// A reply without one.
    pub fn of_code(code: u16, allow: Option<Allow>, location: Option<&'a str>) -> Self
        ensures parts { reply_with result ≡ plain_reply code allow (option_copied location.entry) }
        ensures code { result.code ≡ code }
    {
        ReplyParts {
            code,
            html: false,
            allow,
            location,
            body: &[],
        }
    }

    /// The bytes of the reply, as `Reply::write` has them, with what the manner adds.
    #[tactic(auto, unfolding(crate::specs::Heads::dressed_bytes))]
    pub fn write(&self, heap: Heap, manner: Manner) -> Result<Bytes, Memory>
        requires { IsTrue (is_reply_code self.now.code) }
        ensures { IfOk result (λ bytes. bytes ≡ dressed_bytes (dress_of manner.entry)
            (reply_with self.now) manner.entry.head_only manner.entry.close) }
    {
        let mut out = String::with_capacity(heap, self.room(manner))?;
        self.push_head(&mut out, manner)?;
        if manner.head_only || self.code == 204 {
            return Ok(Bytes::new(out.into_bytes()));
        }
        if self.code != 200 {
            push_status(&mut out, self.code)?;
            out.push_str("\n")?;
            return Ok(Bytes::new(out.into_bytes()));
        }
        with_content(out, self.body, false)
    }

    /// Room for the reply, for which no growth is needed as it is written.
    fn room(&self, manner: Manner) -> usize {
        let content = if manner.head_only { 0 } else { self.body.len() };
        let location = self.location.map_or(0, |location| location.len());
        HEAD_ROOM
            .saturating_add(location)
            .saturating_add(challenge_room(self.code, manner.realm))
            .saturating_add(self.guard_room(manner))
            .saturating_add(content)
    }

    fn guard_room(&self, manner: Manner) -> usize {
        if manner.guarded && self.is_html() {
            GUARD_ROOM
        } else if manner.private {
            PRIVATE_ROOM
        } else {
            0
        }
    }

    /// Whether the reply is a page of HTML.
    fn is_html(&self) -> bool
        ensures { result ≡ is_html (reply_with self.now) }
    {
        self.code == 200 && self.html
    }

    /// Adds the head, with the empty line that ends it.
    #[tactic(auto, unfolding(crate::specs::Heads::dressed_head))]
    fn push_head(&self, out: &mut String, manner: Manner) -> Result<(), Memory>
        requires { IsTrue (is_reply_code self.now.code) }
        ensures { OnOk result (string_bytes out.new ≡ string_bytes out.old
            ++ dressed_head (dress_of manner.entry) (reply_with self.now) manner.entry.close) }
    {
        push_status_line(out, self.code)?;
        self.push_field_lines(out, manner)?;
        out.push_str("\r\n")?;
        Ok(())
    }

    /// Adds the field lines.
    fn push_field_lines(&self, out: &mut String, manner: Manner) -> Result<(), Memory>
        requires { IsTrue (is_reply_code self.now.code) }
        ensures { OnOk result (string_bytes out.new ≡ string_bytes out.old
            ++ dressed_lines (dress_of manner.entry) (reply_with self.now) manner.entry.close) }
    {
        self.push_content_lines(out)?;
        push_location(out, self.location)?;
        push_allow(out, self.allow)?;
        push_challenges(out, self.code, manner.realm)?;
        push_guards(out, manner.guarded && self.is_html(), manner.private)?;
        push_close(out, manner.close)
    }

    /// Adds what says of the content its type and its length.
    fn push_content_lines(&self, out: &mut String) -> Result<(), Memory>
        requires { IsTrue (is_reply_code self.now.code) }
        ensures { OnOk result
            (string_bytes out.new ≡ string_bytes out.old ++ content_lines (reply_with self.now)) }
    {
        if self.code == 204 {
            return Ok(());
        }
        push_field(out, "Content-Type", content_type(self.html))?;
        push_length(out, self.content_len())
    }

    /// The length of the content, whether it is written or not.
    fn content_len(&self) -> usize
        requires { IsTrue (is_reply_code self.now.code) }
        ensures { result ≡ length (content_of (reply_with self.now)) }
    {
        if self.code == 200 {
            self.body.len()
        } else {
            reason(self.code).len() + CODE_ROOM
        }
    }
}

/// Adds the methods that the resource has.
fn push_allow(out: &mut String, allow: Option<Allow>) -> Result<(), Memory>
    ensures { OnOk result (string_bytes out.new ≡ string_bytes out.old ++ allow_line allow) }
{
    match allow {
        Some(allow) => push_field(out, "Allow", allow.methods()),
        None => Ok(()),
    }
}

/// The type of the content.
pub fn content_type(html: bool) -> &'static str
    ensures { result.now ≡ type_of html }
{
    if html {
        "text/html; charset=utf-8"
    } else {
        "text/plain; charset=utf-8"
    }
}
