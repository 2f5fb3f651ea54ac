//! What a request or a fault is answered.

ghost use Rattle.std.specs.Prelude.{◌≡◌, IsTrue, IfOk};
ghost use Rattle.doc_http_replies.specs.Replies.{is_fault_code};
ghost use Rattle.doc_hub_answers.specs.AnswerSteps.{after_edit};
ghost use Rattle.doc_hub_answers.specs.Replies.{fault_bytes};

use crate::edit::Edit;
use doc_http::reply_form::ReplyForm;
use doc_http::status::Status;
use doc_http_replies::manner::Manner;
use doc_page_parts::bytes::Bytes;
use doc_page_parts::failure::Memory;
use doc_page_parts::heap::Heap;

/// A reply as it is sent.
#[derive(Drop)]
pub struct Answer {
    pub bytes: Bytes,
    /// Whether the connection closes after it.
    pub closes: bool,
    /// What was made of the site before it is sent.
    pub edit: Option<Edit>,
}

impl Answer {
    /// The answer after an edit, which was made.
    pub fn after(self, edit: Edit) -> Answer
        ensures { result ≡ after_edit self edit }
    {
        Answer {
            bytes: self.bytes,
            closes: self.closes,
            edit: Some(edit),
        }
    }
}

/// The bytes for what is no request, after which the connection closes.
pub fn answer_to_fault(heap: Heap, code: u16, bare: bool) -> Result<Bytes, Memory>
    requires { IsTrue (is_fault_code code) }
    ensures { IfOk result (λ bytes. bytes ≡ fault_bytes code bare) }
{
    ReplyForm::Status(Status::of_fault(code)).write(heap, Manner::plain(bare, true))
}
