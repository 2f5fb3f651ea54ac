//! What stands in a folder, part by part.

ghost use Rattle.std.specs.Prelude.{◌≡◌, ◌++◌, ◌∷◌, [], true, Some, IfOk, filter, reverse, string_bytes, take};
ghost use Rattle.doc_people.specs.Folders.{keys};
ghost use Rattle.doc_people.specs.Lists.{contents_from};
ghost use Rattle.doc_people.specs.Navigation.{is_before, last_ones};
ghost use Rattle.doc_rows.specs.Rows.{IsRows};
ghost use Rattle.doc_rows_folders.specs.Starts.{is_whole};
ghost use Rattle.doc_store_readers.specs.Sites.{Site, view_of};

use crate::found::{first_key, last_key};
use crate::starts::is_whole;
use doc_page_parts::failure::Memory;
use doc_page_parts::heap::{Heap, String, Vec};
use doc_page_parts::list::List;
use doc_page_parts::text::Text;
use doc_rows::rows::Rows;
use doc_store_readers::reader::Reader;

/// What stands in a folder, pages and folders, from a text on, in order: the first so many. Each is found by one look into each row of
/// the reader.
pub fn keys_from(
    heap: Heap,
    rows: &Rows,
    reader: &Reader,
    folder: &str,
    from: &str,
    most: usize,
) -> Result<List<Text>, Memory>
    ensures { (site : Site) → IsRows site.pages rows.now → IfOk result (λ found.
        found ≡ take most (contents_from (view_of site (Some reader.now)) folder.now from.now)) }
{
    let mut found = Vec::new(heap);
    let mut start = String::from_str(heap, from)?;
    for _turn in 0..most {
        let Some(key) = first_key(heap, rows, reader, folder, start.as_str())? else {
            return Ok(List::new(found));
        };
        start = next_text(heap, key.get())?;
        found.push(key)?;
    }
    Ok(List::new(found))
}

/// What stands in a folder and comes before a text, in order: the last so many. Each is found by one look into each row of the reader,
/// but for a text that is neither empty nor ends in a slash, where nothing tells the end of what begins with it.
pub fn keys_before(
    heap: Heap,
    rows: &Rows,
    reader: &Reader,
    folder: &str,
    before: &str,
    most: usize,
) -> Result<List<Text>, Memory>
    ensures { (site : Site) → IsRows site.pages rows.now → IfOk result (λ found.
        found ≡ last_ones most (filter (λ key. is_before key before.now)
        (keys (view_of site (Some reader.now)) folder.now))) }
{
    if !is_whole(folder) {
        return keys_before_of_all(heap, rows, reader, folder, before, most);
    }
    Ok(in_order(last_keys(heap, rows, reader, folder, before, most)?))
}

/// The same backwards.
fn last_keys(
    heap: Heap,
    rows: &Rows,
    reader: &Reader,
    folder: &str,
    before: &str,
    most: usize,
) -> Result<Vec<Text>, Memory>
    requires { is_whole folder.now ≡ true }
    ensures { (site : Site) → IsRows site.pages rows.now → IfOk result (λ found.
        reverse found.items ≡ last_ones most (filter (λ key. is_before key before.now)
        (keys (view_of site (Some reader.now)) folder.now))) }
{
    let mut found = Vec::new(heap);
    let mut end = String::from_str(heap, before)?;
    for _turn in 0..most {
        let Some(key) = last_key(heap, rows, reader, folder, end.as_str())? else {
            return Ok(found);
        };
        end = String::from_str(heap, key.get())?;
        found.push(key)?;
    }
    Ok(found)
}

/// Texts in reverse.
fn in_order(mut found: Vec<Text>) -> List<Text>
    ensures { result ≡ reverse found.items }
{
    found.reverse();
    List::new(found)
}

/// The same of a text that doesn't end in a slash: of all that begins with it.
fn keys_before_of_all(
    heap: Heap,
    rows: &Rows,
    reader: &Reader,
    folder: &str,
    before: &str,
    most: usize,
) -> Result<List<Text>, Memory>
    ensures { (site : Site) → IsRows site.pages rows.now → IfOk result (λ found.
        found ≡ last_ones most (filter (λ key. is_before key before.now)
        (keys (view_of site (Some reader.now)) folder.now))) }
{
    let all = keys_from(heap, rows, reader, folder, "", usize::MAX)?;
    let keys = all.get();
    if keys.len() == usize::MAX {
        return Err(Memory);
    }
    let mut found = keys_up_to(heap, keys, before)?;
    let surplus = found.as_slice().len().saturating_sub(most);
    Ok(List::new(found.split_off(surplus)?))
}

/// Those of some texts that come before another.
fn keys_up_to(heap: Heap, keys: &[Text], before: &str) -> Result<Vec<Text>, Memory>
    ensures { IfOk result (λ found.
        found.items ≡ filter (λ key. is_before key before.now) keys.now) }
{
    let mut found = Vec::new(heap);
    for key in keys {
        if key.get() < before {
            found.push(key.copy(heap)?)?;
        }
    }
    Ok(found)
}

/// The text right behind another.
fn next_text(heap: Heap, text: &str) -> Result<String, Memory>
    ensures { IfOk result (λ next. string_bytes next ≡ text.now ++ (0 ∷ [])) }
{
    let mut next = String::from_str(heap, text)?;
    next.push_str("\0")?;
    Ok(next)
}
