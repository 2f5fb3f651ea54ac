//! The conditions of a request, as its head sends them.

ghost use Rattle.std.specs.Prelude.{◌≡◌, length, map, All, IfOk};
ghost use Rattle.httparse.specs.Spans.{IsHeaderWithin, header_bytes};
ghost use Rattle.doc_http_bodies.specs.Fields.{values_named};
ghost use Rattle.doc_http.specs.Conditions.{joined_values};
ghost use Rattle.doc_http.specs.ConditionSteps.{with_value};

use doc_http_bodies::names::is_named;
use doc_page_parts::bytes::Bytes;
use doc_page_parts::failure::Memory;
use doc_page_parts::heap::Heap;
use httparse::spans::HeaderSpan;

/// The values of all fields of the name in their order, joined (RFC 9110, section 5.3). Memory is taken
/// where there is such a field.
pub fn joined_values(
    heap: Heap,
    text: &[u8],
    headers: &[HeaderSpan],
    name: &[u8],
) -> Result<Option<Bytes>, Memory>
    requires { All (IsHeaderWithin (length text.now)) headers.now }
    ensures { IfOk result (λ joined. joined
        ≡ joined_values (values_named name.now (map (header_bytes text.now) headers.now))) }
{
    let mut joined = None;
    'headers: for header in headers {
        if is_named(header.name.of(text), name) {
            joined = Some(with_value(heap, joined, header.value.of(text))?);
        }
    }
    Ok(joined)
}

/// What is joined, with a value behind it.
fn with_value(heap: Heap, joined: Option<Bytes>, value: &[u8]) -> Result<Bytes, Memory>
    ensures { IfOk result (λ all. all ≡ with_value joined value.now) }
{
    let Some(mut joined) = joined else {
        return Bytes::copy_of(heap, value);
    };
    joined.extend(b", ")?;
    joined.extend(value)?;
    Ok(joined)
}
