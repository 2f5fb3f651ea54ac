//! Replies without a body of their own, by the forms that they have, each of which can be written.

ghost use Rattle.std.specs.Prelude.{◌≡◌, IsTrue, IfOk};
ghost use Rattle.doc_http_replies.specs.Heads.{dressed_bytes};
ghost use Rattle.doc_http_replies.specs.Manners.{dress_of};
ghost use Rattle.doc_http_replies.specs.Replies.{is_reply_code};
ghost use Rattle.doc_http_replies.specs.ReplyForms.{reply_of};
ghost use Rattle.doc_http_replies.specs.ReplySteps.{reply_with};

use crate::manner::Manner;
use crate::reply::Allow;
use crate::reply_parts::ReplyParts;
use crate::status::Status;
use doc_page_parts::bytes::Bytes;
use doc_page_parts::failure::Memory;
use doc_page_parts::heap::Heap;
use doc_page_parts::text::Text;

/// A reply to one request which shows nothing of the site, by its form.
#[derive(Debug, Drop)]
pub enum ReplyForm {
    /// 301: where the resource is, a reference whose bytes are written as they are.
    Moved(Text),
    /// 405: what the resource is, which hasn't the method.
    NotAllowed(Allow),
    /// No more than a status.
    Status(Status),
}

impl ReplyForm {
    /// The bytes of the reply, as `Reply::write` has them, with what the manner adds.
    pub fn write(&self, heap: Heap, manner: Manner) -> Result<Bytes, Memory>
        ensures { IfOk result (λ bytes. bytes ≡ dressed_bytes (dress_of manner.entry)
            (reply_of self.now) manner.entry.head_only manner.entry.close) }
    {
        self.parts().write(heap, manner)
    }

    /// The reply's parts, borrowed.
    fn parts(&self) -> ReplyParts<'_>
        ensures parts { reply_with result ≡ reply_of self.now }
        ensures known { IsTrue (is_reply_code result.code) }
    {
        match self {
            ReplyForm::Moved(location) => ReplyParts::of_code(301, None, Some(location.get())),
            ReplyForm::NotAllowed(allow) => ReplyParts::of_code(405, Some(*allow), None),
            ReplyForm::Status(status) => ReplyParts::of_code(status.code(), None, None),
        }
    }
}
