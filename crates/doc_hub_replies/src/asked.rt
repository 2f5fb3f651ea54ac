//! What requests ask for, before it is known who asks.

ghost use Rattle.std.specs.Prelude.{◌≡◌};
ghost use Rattle.doc_http.specs.Requests.{is_bare};
ghost use Rattle.doc_hub_replies.specs.Answers.{asks_for_style, is_for_people};

use doc_http::request::Request;
use doc_http_targets::people_route::is_style_sheet;
use doc_hub_media::method::Method;

/// Whether a request asks for the style sheet of the pages for people.
pub fn asks_for_style(request: &Request) -> bool
    ensures { result ≡ asks_for_style request.now }
{
    Method::of(request.method.get()).reads() && is_style_sheet(request.target.get())
}

/// Whether a request is for people: it reads, and names HTML among what it accepts.
pub fn is_for_people(request: &Request) -> bool
    ensures { result ≡ is_for_people request.now }
{
    Method::of(request.method.get()).reads() && request.html
}

/// Whether the reply is its head alone (RFC 9110, section 9.3.2).
pub fn head_only(request: &Request) -> bool
    ensures { result ≡ is_bare request.now.method }
{
    request.method.get() == "HEAD"
}
