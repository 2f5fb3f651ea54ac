//! Methods of requests.

ghost use Rattle.std.specs.Prelude.{◌≡◌};
ghost use Rattle.doc_hub_answers.specs.Replies.{method_of, reads};

/// What a request asks for (RFC 9110, section 9.3).
#[derive(Clone, Copy, Debug, PartialEq, Eq)]
pub enum Method {
    Get,
    Head,
    Put,
    Delete,
    Post,
    /// A method that no resource here has.
    Other,
}

impl Method {
    /// The method of this name; methods have case.
    pub fn of(name: &str) -> Method
        ensures { result ≡ method_of name.now }
    {
        match name {
            "GET" => Method::Get,
            "HEAD" => Method::Head,
            "PUT" => Method::Put,
            "DELETE" => Method::Delete,
            "POST" => Method::Post,
            _ => Method::Other,
        }
    }

    /// Whether it only reads: GET and HEAD, which every resource here has.
    pub fn reads(self) -> bool
        ensures { result ≡ reads self }
    {
        matches!(self, Method::Get | Method::Head)
    }
}
