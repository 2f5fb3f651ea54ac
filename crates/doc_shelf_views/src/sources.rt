//! The pages that write one of a page's names, from a text on, found by looks into the rows of a reader.

ghost use Rattle.std.specs.Prelude.{◌≡◌, ◌++◌, ◌∷◌, [], IfOk, Some, map as mapped, option_copied, string_bytes, take};
ghost use Rattle.doc_rows.specs.Looks.{first_from, from_text, lesser};
ghost use Rattle.doc_rows_links.specs.LinkRows.{IsLinkRows, Linking};
ghost use Rattle.doc_shelf_views.specs.Sources.{others_writing, paths_writing_one};
ghost use Rattle.doc_store_readers.specs.Sites.{Site, view_of};

use doc_page_parts::failure::Memory;
use doc_page_parts::heap::{Heap, String, Vec};
use doc_page_parts::path::Path;
use doc_page_parts::text::Text;
use doc_rows_links::link_rows::LinkRows;
use doc_store::reader::Reader;

/// A page under one of its names, as it is looked for: its path, and all its names.
#[derive(Clone, Copy)]
pub(crate) struct Target<'a> {
    pub path: &'a Path,
    pub names: &'a [&'a Path],
}

/// The other pages that a reader sees and that write one of a page's names, from a text on, in order: the first so many. Each is found by
/// a look into each row of the reader for each name, and the page itself, where it comes, by one more.
pub(crate) fn others_from(
    heap: Heap,
    link_rows: &LinkRows,
    target: Target,
    reader: &Reader,
    from: &str,
    most: usize,
) -> Result<Vec<Text>, Memory>
    ensures { (linking : Linking) (site : Site) → IsLinkRows linking site.pages link_rows.now
        → IfOk result (λ found. found.items ≡ take most (from_text from.now
        (others_writing linking (view_of site (Some reader.now))
        (mapped (λ name. name.now) target.entry.names.now) target.entry.path.now))) }
{
    let mut found = Vec::new(heap);
    let mut start = String::from_str(heap, from)?;
    for _turn in 0..most {
        let Some(source) = first_other(heap, link_rows, target, reader, &start)? else {
            return Ok(found);
        };
        start = next_text(heap, source)?;
        found.push(Text::copy_of(heap, source)?)?;
    }
    Ok(found)
}

/// The first of them from a text on.
fn first_other<'a>(
    heap: Heap,
    link_rows: &'a LinkRows,
    target: Target,
    reader: &Reader,
    start: &String,
) -> Result<Option<&'a str>, Memory>
    ensures { (linking : Linking) (site : Site) → IsLinkRows linking site.pages link_rows.now
        → IfOk result (λ found. option_copied found ≡ first_from (string_bytes start.now)
        (others_writing linking (view_of site (Some reader.now))
        (mapped (λ name. name.now) target.entry.names.now) target.entry.path.now)) }
{
    let Some(first) = first_writing(link_rows, target.names, reader, start) else {
        return Ok(None);
    };
    if first != target.path.text() {
        return Ok(Some(first));
    }
    let behind = next_text(heap, first)?;
    Ok(first_writing(link_rows, target.names, reader, &behind))
}

/// The first page that a reader sees, that writes one of some names, and that doesn't come before a text.
fn first_writing<'a>(
    link_rows: &'a LinkRows,
    names: &[&Path],
    reader: &Reader,
    start: &String,
) -> Option<&'a str>
    ensures { (linking : Linking) (site : Site) → IsLinkRows linking site.pages link_rows.now
        → option_copied result ≡ first_from (string_bytes start.now)
        (paths_writing_one linking (view_of site (Some reader.now))
        (mapped (λ name. name.now) names.now)) }
{
    let mut best = None;
    for name in names {
        best = lesser(best, link_rows.first_seen(name.text(), reader, start));
    }
    best
}

/// The one of two that comes first, where both are there.
fn lesser<'a>(one: Option<&'a str>, other: Option<&'a str>) -> Option<&'a str>
    ensures { option_copied result ≡ lesser (option_copied one.entry) (option_copied other.entry) }
{
    let Some(first) = one else {
        return other;
    };
    let Some(second) = other else {
        return one;
    };
    if second < first { other } else { one }
}

/// The text right behind another.
fn next_text(heap: Heap, text: &str) -> Result<String, Memory>
    ensures { IfOk result (λ next. string_bytes next ≡ text.now ++ (0 ∷ [])) }
{
    let mut next = String::from_str(heap, text)?;
    next.push_str("\0")?;
    Ok(next)
}
