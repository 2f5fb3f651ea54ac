//! One request, how the reply to it is written, and whether a put that it asks for is taken.

ghost use Rattle.std.specs.Prelude.{◌≡◌, IfOk, None};
ghost use Rattle.doc_http_replies.specs.PieceSteps.{content_in};
ghost use Rattle.doc_http_replies.specs.ReplyForms.{code_of, content_reply, reply_of};
ghost use Rattle.doc_hub_answers.specs.AnswerSteps.{sent_in};
ghost use Rattle.doc_hub_answers.specs.Replies.{only_reply, refused};

use crate::answer::Answer;
use crate::method::Method;
use doc_http::reply::write_content;
use doc_http::reply_form::ReplyForm;
use doc_http::request::Request;
use doc_http::status::Status;
use doc_http_replies::manner::Manner;
use doc_http_replies::pieces::{Pieces, write_pieces};
use doc_page_parts::bytes::Bytes;
use doc_page_parts::failure::Memory;
use doc_page_parts::heap::Heap;
use doc_page_parts::text::Text;

/// A request, how the reply to it is written, and whether a put that it asks for is taken.
#[derive(Clone, Copy)]
pub struct Exchange<'a> {
    pub heap: Heap,
    pub request: &'a Request,
    /// The request's.
    pub method: Method,
    /// How the reply is written.
    pub manner: Manner<'a>,
    /// Whether the server takes puts.
    pub takes_puts: bool,
}

impl Exchange<'_> {
    /// The answer that these bytes are, after no edit.
    pub fn sent(&self, bytes: Bytes) -> Answer
        ensures { result ≡ record { bytes = bytes; closes = self.now.manner.close; edit = None } }
    {
        Answer {
            bytes,
            closes: self.manner.close,
            edit: None,
        }
    }

    /// The answer that is this reply, after no edit.
    pub fn reply(&self, form: ReplyForm) -> Result<Answer, Memory>
        ensures { IfOk result (λ a. a ≡ sent_in self.now (only_reply (reply_of form))) }
    {
        Ok(self.sent(form.write(self.heap, self.manner)?))
    }

    /// The answer that is this text, HTML or else plain, after no edit.
    pub fn content(&self, html: bool, text: &Text) -> Result<Answer, Memory>
        ensures { IfOk result
            (λ a. a ≡ sent_in self.now (only_reply (content_reply html text.now))) }
    {
        let bytes = text.get().as_bytes();
        let reply = write_content(self.heap, html, bytes, self.manner)?;
        Ok(self.sent(reply))
    }

    /// The answer that these texts are together, HTML or else plain, after no edit.
    pub fn pieces(&self, html: bool, pieces: &Pieces) -> Result<Answer, Memory>
        ensures { IfOk result
            (λ a. a ≡ sent_in self.now (only_reply (content_reply html (content_in pieces.now)))) }
    {
        let reply = write_pieces(self.heap, html, pieces, self.manner)?;
        Ok(self.sent(reply))
    }

    /// The answer that says no more than a status, after no edit.
    pub fn status(&self, status: Status) -> Result<Answer, Memory>
        ensures { IfOk result (λ a. a ≡ sent_in self.now (refused (code_of status))) }
    {
        self.reply(ReplyForm::Status(status))
    }
}
