//! Which requests send Markdown.

ghost use Rattle.std.specs.Prelude.{◌≡◌, length, map, codes, All};
ghost use Rattle.httparse.specs.Spans.{IsHeaderWithin, header_bytes};
ghost use Rattle.doc_http_bodies.specs.Fields.{values_named};
ghost use Rattle.doc_http.specs.ContentTypes.{is_markdown as markdown_test, names_markdown};

use crate::accept::media_range;
use crate::fields::{count_named, value_named};
use httparse::spans::HeaderSpan;

/// Whether the head has one Content-Type field, and that one names `text/markdown` (RFC 9110, section 8.3).
pub fn sends_markdown(text: &[u8], headers: &[HeaderSpan]) -> bool
    requires { All (IsHeaderWithin (length text.now)) headers.now }
    ensures { result ≡ names_markdown
        (values_named (codes "content-type") (map (header_bytes text.now) headers.now)) }
{
    let Some(value) = value_named(text, headers, b"content-type") else {
        return false;
    };
    is_markdown(value) && count_named(text, headers, b"content-type") == 1
}

/// Whether the media type of a value is `text/markdown`, in any case.
fn is_markdown(value: &[u8]) -> bool
    ensures { result ≡ markdown_test value.now }
{
    media_range(value).eq_ignore_ascii_case(b"text/markdown")
}
