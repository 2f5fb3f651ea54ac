//! Paths and folders as texts. A folder is the empty text, or segments each with `/` behind it.

ghost use Rattle.std.specs.Prelude.{◌≡◌, ◌-◌, not, length, IfOk};
ghost use Rattle.std.specs.List.{suffix_len};
ghost use Rattle.doc_people.specs.Folders.{folder_of, index_of, is_folder, is_slash, name, parent, without_last};
ghost use Rattle.doc_people.specs.Navigation.{is_before};
ghost use Rattle.std.specs.Prelude.{if◌then◌else◌};

use doc_page_parts::failure::Memory;
use doc_page_parts::heap::{Heap, String};
use doc_page_parts::text::Text;
use std::cmp::Ordering;

/// Whether this is a folder, and not the path of a page.
pub fn is_folder(place: &str) -> bool
    ensures { result ≡ is_folder place.now }
{
    match place.as_bytes() {
        [] => true,
        [.., last] => *last == b'/',
    }
}

/// The folder of a page; of a folder itself.
pub fn folder_of(place: &str) -> &str
    ensures { result.now ≡ folder_of place.now }
{
    &place[..folder_len(place.as_bytes())]
}

/// The folder that a folder stands in; of the empty one itself.
pub fn parent(folder: &str) -> &str
    ensures { result.now ≡ parent folder.now }
{
    let bytes = folder.as_bytes();
    &folder[..folder_len(&bytes[..bytes.len().saturating_sub(1)])]
}

/// The last segment of a path or of a folder, without the `/` behind it.
pub fn name(place: &str) -> &str
    ensures { result.now ≡ name place.now }
{
    let path = without_slash(place);
    &path[folder_len(path.as_bytes())..]
}

/// The page that stands for a folder, where it is there.
pub fn index_of(heap: Heap, folder: &str) -> Result<Text, Memory>
    ensures { IfOk result (λ index. index ≡ index_of folder.now) }
{
    let mut index = String::from_str(heap, folder)?;
    index.push_str("index.md")?;
    Ok(Text::new(index))
}

/// Whether one comes before the other in the order of bytes.
pub fn is_before(one: &str, other: &str) -> bool
    ensures { result ≡ is_before one.now other.now }
{
    one.cmp(other) == Ordering::Less
}

/// How long the folder at the start is: up to the last `/`, with it.
fn folder_len(place: &[u8]) -> usize
    ensures { result ≡ length place.now - suffix_len (λ b. not (is_slash b)) place.now }
{
    place.len() - behind_slash(place)
}

/// How many bytes stand behind the last `/`.
fn behind_slash(place: &[u8]) -> usize
    ensures { result ≡ suffix_len (λ b. not (is_slash b)) place.now }
{
    place
        .iter()
        .rev()
        .take_while(|byte| is_no_slash(**byte))
        .count()
}

fn is_no_slash(byte: u8) -> bool
    ensures { result ≡ not (is_slash byte) }
{
    byte != b'/'
}

/// The place without the `/` at its end, where it has one.
fn without_slash(place: &str) -> &str
    ensures { result.now ≡ (if is_folder place.now then without_last place.now else place.now) }
{
    if !is_folder(place) {
        return place;
    }
    &place[..place.len().saturating_sub(1)]
}
