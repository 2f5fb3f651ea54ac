//! Replies as bytes.

ghost use Rattle.std.specs.Prelude.{◌≡◌, ◌≢◌, ◌==◌, [], false, is_some, IsTrue, IfOk};
ghost use Rattle.doc_http_replies.specs.Replies.{reply_bytes, is_reply_code, allowed_methods};
ghost use Rattle.doc_http_replies.specs.ReplyForms.{content_reply};
ghost use Rattle.doc_http_replies.specs.ReplySteps.{reply_with};
ghost use Rattle.doc_http_replies.specs.Heads.{dressed_bytes};
ghost use Rattle.doc_http_replies.specs.Manners.{dress_of};

use crate::manner::Manner;
use crate::reply_parts::ReplyParts;
use doc_page_parts::bytes::Bytes;
use doc_page_parts::failure::Memory;
use doc_page_parts::heap::Heap;
use doc_page_parts::text::Text;

/// A reply to one request (RFC 9112, section 2.1).
#[derive(Debug, Drop)]
pub struct Reply {
    pub code: u16,
    /// Whether the body of a 200 is HTML, and not plain text; both in UTF-8.
    pub html: bool,
    /// With 405, what the resource is.
    pub allow: Option<Allow>,
    /// With 301, where the resource is: a reference, whose bytes are written as they are.
    pub location: Option<Text>,
    /// The content of a 200. The other replies have one of their own.
    pub body: Bytes,
}

/// What a resource is, which says the methods that it has.
#[derive(Clone, Copy, Debug, PartialEq, Eq)]
pub enum Allow {
    /// A page: GET, HEAD, PUT and DELETE.
    Page,
    /// What is only read: GET and HEAD.
    Read,
    /// What is only written: PUT.
    Write,
    /// What texts are sent to: POST.
    Post,
    /// What has no method (RFC 9110, section 10.2.1).
    Nothing,
}

impl Reply {
    /// The bytes of the reply: its status line, Content-Type, Content-Length, Location (301), Allow (405),
    /// WWW-Authenticate (401), `Connection: close` where `close`, an empty line and the content, which
    /// is the body of a 200 and else a line of the code and its reason. A 204 has neither type nor
    /// length nor content. `head_only` leaves the content out, as for HEAD.
    /// It is for callers from outside: the product writes contents and forms.
    pub fn write(&self, heap: Heap, head_only: bool, close: bool) -> Result<Bytes, Memory>
        requires known { IsTrue (is_reply_code self.now.code) }
        requires allowed { is_some self.now.allow ≡ (self.now.code == 405) }
        requires located { is_some self.now.location ≡ (self.now.code == 301) }
        requires content { self.now.code ≢ 200 → (self.now.body ≡ []) × (self.now.html ≡ false) }
        ensures { IfOk result (λ bytes. bytes ≡ reply_bytes self.now head_only close) }
    {
        self.parts().write(heap, Manner::plain(head_only, close))
    }

    /// The parts, borrowed.
    fn parts(&self) -> ReplyParts<'_>
        ensures { reply_with result ≡ self.now }
    {
        ReplyParts {
            code: self.code,
            html: self.html,
            allow: self.allow,
            location: match &self.location {
                Some(location) => Some(location.get()),
                None => None,
            },
            body: self.body.get(),
        }
    }
}

impl Allow {
    /// The methods that the resource has.
    pub fn methods(self) -> &'static str
        ensures { result.now ≡ allowed_methods self }
    {
        match self {
            Allow::Page => "GET, HEAD, PUT, DELETE",
            Allow::Read => "GET, HEAD",
            Allow::Write => "PUT",
            Allow::Post => "POST",
            Allow::Nothing => "",
        }
    }
}

/// The bytes of a reply of status 200 round this content, which is copied once, and not at all where the manner is the head alone.
pub fn write_content(
    heap: Heap,
    html: bool,
    content: &[u8],
    manner: Manner,
) -> Result<Bytes, Memory>
    ensures { IfOk result (λ bytes. bytes ≡ dressed_bytes (dress_of manner.entry)
        (content_reply html content.now) manner.entry.head_only manner.entry.close) }
{
    ReplyParts::of_content(html, content).write(heap, manner)
}
