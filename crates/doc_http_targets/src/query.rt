//! What the query of a target asks for.

ghost use Rattle.std.specs.Prelude.{◌≡◌, IfOk, option_map, string_bytes};
ghost use Rattle.doc_http_targets.specs.Queries.{optional_parameter, parameter, query_of, value_of};

use doc_page_parts::failure::Memory;
use doc_page_parts::heap::{Heap, String};
use doc_page_parts::text::Text;

/// The value of the first pair of this name in a target's query, which is read as a form (URL Standard,
/// section 5.1): `+` is a space, percent-encoded bytes are decoded, in names too, and what is no UTF-8 then
/// becomes U+FFFD. Empty where there is none.
pub fn parameter(heap: Heap, target: &str, name: &str) -> Result<Text, Memory>
    ensures { IfOk result (λ value. value ≡ parameter target.now name.now) }
{
    match optional_parameter(heap, target, name)? {
        Some(value) => Ok(value),
        None => Ok(Text::new(String::new(heap))),
    }
}

/// The value of the first pair of this name in a target's query, read as [`parameter`] reads it; `None` where there is none, so that a
/// pair without a value isn't taken for one that is absent.
pub fn optional_parameter(heap: Heap, target: &str, name: &str) -> Result<Option<Text>, Memory>
    ensures { IfOk result (λ value. value ≡ optional_parameter target.now name.now) }
{
    match value_in(heap, query(target), name)? {
        Some(value) => Ok(Some(Text::new(value))),
        None => Ok(None),
    }
}

fn query(target: &str) -> &str
    ensures { result.now ≡ query_of target.now }
{
    match target.split_once('?') {
        Some((_, query)) => query,
        None => "",
    }
}

/// The value of the first pair of this name.
#[tactic(auto, unfolding(crate::specs::Queries::value_of))]
fn value_in(heap: Heap, query: &str, name: &str) -> Result<Option<String>, Memory>
    ensures { IfOk result (λ value. option_map string_bytes value ≡ value_of query.now name.now) }
{
    'pairs: for (key, encoded) in form_urlencoded::raw_pairs(query.as_bytes()) {
        let key = form_urlencoded::decode(heap, key)?;
        if key.as_str() == name {
            let value = form_urlencoded::decode(heap, encoded)?;
            return Ok(Some(value.into_owned(heap)?));
        }
    }
    Ok(None)
}
