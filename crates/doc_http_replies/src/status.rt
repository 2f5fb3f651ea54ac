//! The statuses of replies.

ghost use Rattle.std.specs.Prelude.{◌≡◌, IsTrue};
ghost use Rattle.doc_http_replies.specs.Replies.{is_fault_code, is_reply_code};
ghost use Rattle.doc_http_replies.specs.ReplyForms.{code_of};

/// The status of a reply that says no more than it (RFC 9110, section 15; 431: RFC 6585, section 5; 507: RFC 4918, section 11.5).
#[derive(Clone, Copy, Debug, PartialEq, Eq)]
pub enum Status {
    Created,
    NoContent,
    BadRequest,
    Unauthorized,
    Forbidden,
    NotFound,
    ContentTooLarge,
    UnsupportedMediaType,
    RequestHeaderFieldsTooLarge,
    NotImplemented,
    InsufficientStorage,
}

impl Status {
    /// The three digits that name it.
    pub fn code(self) -> u16
        ensures code { result ≡ code_of self }
        ensures known { IsTrue (is_reply_code result) }
    {
        match self {
            Status::Created => 201,
            Status::NoContent => 204,
            Status::BadRequest => 400,
            Status::Unauthorized => 401,
            Status::Forbidden => 403,
            Status::NotFound => 404,
            Status::ContentTooLarge => 413,
            Status::UnsupportedMediaType => 415,
            Status::RequestHeaderFieldsTooLarge => 431,
            Status::NotImplemented => 501,
            Status::InsufficientStorage => 507,
        }
    }

    /// The status of a fault of a request, by its code.
    pub fn of_fault(code: u16) -> Status
        requires { IsTrue (is_fault_code code) }
        ensures { code_of result ≡ code }
    {
        match code {
            400 => Status::BadRequest,
            413 => Status::ContentTooLarge,
            431 => Status::RequestHeaderFieldsTooLarge,
            _ => Status::NotImplemented,
        }
    }
}
