//! What conditions come to.

ghost use Rattle.std.specs.Prelude.{◌≡◌};
ghost use Rattle.doc_http_conditions.specs.Verdicts.{why_failed, why_unread};

/// What the conditions of a request come to.
#[derive(Clone, Copy, Debug, PartialEq, Eq)]
pub enum Verdict {
    /// The request is done.
    Holds,
    /// A field is neither `*` nor a list of entity tags: the request is answered 400.
    Unread(Field),
    /// The request is answered 412 (RFC 9110, section 15.5.13).
    Fails(Failure),
    /// A request that only reads has nothing new: it is answered 304 (RFC 9110, section 15.4.5).
    Unchanged,
}

/// A field that states a condition.
#[derive(Clone, Copy, Debug, PartialEq, Eq)]
pub enum Field {
    IfMatch,
    IfNoneMatch,
}

/// Why a condition fails.
#[derive(Clone, Copy, Debug, PartialEq, Eq)]
pub enum Failure {
    /// There is an If-Match, and no page stands.
    NoPage,
    /// The tag of the page is not in If-Match.
    OtherVersion,
    /// If-None-Match is `*`, and a page stands.
    APage,
    /// The tag of the page is in If-None-Match.
    ThisVersion,
}

impl Field {
    /// Why the request is answered 400, where this field can't be read.
    pub fn why(self) -> &'static str
        ensures { result.now ≡ why_unread self }
    {
        match self {
            Field::IfMatch => "If-Match is neither * nor a list of entity tags",
            Field::IfNoneMatch => "If-None-Match is neither * nor a list of entity tags",
        }
    }
}

impl Failure {
    /// Why the request is answered 412.
    pub fn why(self) -> &'static str
        ensures { result.now ≡ why_failed self }
    {
        match self {
            Failure::NoPage => "no page stands there",
            Failure::OtherVersion => "another version of the page stands there",
            Failure::APage => "a page stands there",
            Failure::ThisVersion => "this version of the page stands there",
        }
    }
}
