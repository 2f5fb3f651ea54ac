//! The front of a list that is shown, and what stands behind it. One entry more is asked for than is shown, so that it is known whether
//! more follows.

ghost use Rattle.std.specs.Prelude.{◌≡◌, option_copied, option_map, slice_get, take};
ghost use Rattle.doc_people.specs.Limits.{list_limit};

use doc_page_parts::path::Path;
use doc_page_parts::text::Text;

/// How many entries a page of contents or backlinks has at most.
pub(crate) const LIST_LIMIT: usize = 200;

/// Room for an entry: a guess, on which nothing rests.
pub(crate) const ENTRY_ROOM: usize = 256;

/// The pages and folders that are shown.
pub(crate) fn shown_keys(keys: &[Text]) -> &[Text]
    ensures { result.now ≡ take list_limit keys.now }
{
    if keys.len() <= LIST_LIMIT {
        return keys;
    }
    &keys[..LIST_LIMIT]
}

/// The page or folder behind those that are shown.
pub(crate) fn next_key(keys: &[Text]) -> Option<&str>
    ensures { option_copied result ≡ slice_get keys.now list_limit }
{
    match keys.get(LIST_LIMIT) {
        Some(key) => Some(key.get()),
        None => None,
    }
}

/// The pages with links that are shown.
pub(crate) fn shown_sources(sources: &[(Path, u64)]) -> &[(Path, u64)]
    ensures { result.now ≡ take list_limit sources.now }
{
    if sources.len() <= LIST_LIMIT {
        return sources;
    }
    &sources[..LIST_LIMIT]
}

/// The page behind those that are shown.
pub(crate) fn next_source(sources: &[(Path, u64)]) -> Option<&str>
    ensures { option_copied result
        ≡ option_map (λ source. source.0) (slice_get sources.now list_limit) }
{
    match sources.get(LIST_LIMIT) {
        Some(source) => Some(source.0.text()),
        None => None,
    }
}
