//! Addresses of pages and folders, which need no escaping.

ghost use Rattle.std.specs.Prelude.{◌≡◌, ◌++◌, string_bytes, OnOk};
ghost use Rattle.doc_people.specs.Folders.{contents_href, edit_href, folder_href, page_href};
ghost use Rattle.doc_people.specs.Pages.{backlinks_href};

use crate::texts::index_of;
use doc_page_encoding::encoding::push_encoded_path;
use doc_page_parts::failure::Memory;
use doc_page_parts::heap::{Heap, String};
use doc_people::viewed::Viewed;

/// Writes the address of a page.
pub fn push_page_href(out: &mut String, path: &str) -> Result<(), Memory>
    ensures { OnOk result (string_bytes out.new ≡ string_bytes out.old ++ page_href path.now) }
{
    out.push_str("/page/")?;
    push_encoded_path(out, path)
}

/// Writes the address of the list of all pages that link to a page.
pub fn push_backlinks_href(out: &mut String, path: &str) -> Result<(), Memory>
    ensures { OnOk result (string_bytes out.new ≡ string_bytes out.old ++ backlinks_href path.now) }
{
    out.push_str("/backlinks/")?;
    push_encoded_path(out, path)
}

/// Writes the address of the contents of a folder.
pub fn push_contents_href(out: &mut String, folder: &str) -> Result<(), Memory>
    ensures { OnOk result (string_bytes out.new
        ≡ string_bytes out.old ++ contents_href folder.now) }
{
    if folder.is_empty() {
        out.push_str("/contents")?;
        return Ok(());
    }
    out.push_str("/contents/")?;
    push_encoded_path(out, folder)
}

/// Writes the address of a folder: of the page that stands for it, where it is seen, and else of its contents.
pub fn push_folder_href<V: Viewed>(
    out: &mut String,
    heap: Heap,
    view: &V,
    folder: &str,
) -> Result<(), Memory>
    ensures { OnOk result (string_bytes out.new
        ≡ string_bytes out.old ++ folder_href (V.view view.now) folder.now) }
{
    let index = index_of(heap, folder)?;
    if view.sees(index.get())? {
        return push_page_href(out, index.get());
    }
    push_contents_href(out, folder)
}

/// Writes where a page is edited, or begun; of a folder, what begins a page in it.
pub fn push_edit_href(out: &mut String, place: &str) -> Result<(), Memory>
    ensures { OnOk result (string_bytes out.new ≡ string_bytes out.old ++ edit_href place.now) }
{
    out.push_str("/edit/")?;
    push_encoded_path(out, place)
}
