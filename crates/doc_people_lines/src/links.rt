//! Links to pages and folders, with their labels.

ghost use Rattle.std.specs.Prelude.{◌≡◌, ◌++◌, string_bytes, OnOk};
ghost use Rattle.doc_people.specs.Folders.{contents_href, edit_href, folder_href, folder_label, label, page_href};
ghost use Rattle.doc_people.specs.Lines.{link, link_or_current};
ghost use Rattle.doc_people.specs.Lists.{page_and_path};

use crate::addresses::{push_contents_href, push_edit_href, push_folder_href, push_page_href};
use crate::lines::{push_link_end, push_link_start, push_path_span};
use crate::titles::{folder_label, label};
use doc_page_parts::failure::Memory;
use doc_page_parts::heap::{Heap, String};
use doc_people::viewed::Viewed;

/// Writes a link to a page, by whether it is the page that is shown.
pub fn push_page_link<V: Viewed>(
    out: &mut String,
    heap: Heap,
    view: &V,
    path: &str,
    current: bool,
) -> Result<(), Memory>
    ensures { OnOk result (string_bytes out.new ≡ string_bytes out.old ++ link_or_current
        (page_href path.now) current (label (V.render view.now) (V.view view.now) path.now)) }
{
    let text = label(heap, view, path)?;
    push_link_start(out)?;
    push_page_href(out, path)?;
    push_link_end(out, current, text.get())
}

/// Writes a link to a folder, by whether what it leads to is the page that is shown.
pub fn push_folder_link<V: Viewed>(
    out: &mut String,
    heap: Heap,
    view: &V,
    folder: &str,
    current: bool,
) -> Result<(), Memory>
    ensures { OnOk result (string_bytes out.new ≡ string_bytes out.old ++ link_or_current
        (folder_href (V.view view.now) folder.now) current
        (folder_label (V.render view.now) (V.view view.now) folder.now)) }
{
    let text = folder_label(heap, view, folder)?;
    push_link_start(out)?;
    push_folder_href(out, heap, view, folder)?;
    push_link_end(out, current, text.get())
}

/// Writes a link to the contents of a folder, by whether they are the page that is shown.
pub fn push_contents_link<V: Viewed>(
    out: &mut String,
    heap: Heap,
    view: &V,
    folder: &str,
    current: bool,
) -> Result<(), Memory>
    ensures { OnOk result (string_bytes out.new ≡ string_bytes out.old ++ link_or_current
        (contents_href folder.now) current
        (folder_label (V.render view.now) (V.view view.now) folder.now)) }
{
    let text = folder_label(heap, view, folder)?;
    push_link_start(out)?;
    push_contents_href(out, folder)?;
    push_link_end(out, current, text.get())
}

/// Writes a link to a page, and its path.
pub fn push_page_and_path<V: Viewed>(
    out: &mut String,
    heap: Heap,
    view: &V,
    path: &str,
) -> Result<(), Memory>
    ensures { OnOk result (string_bytes out.new ≡ string_bytes out.old
        ++ page_and_path (V.render view.now) (V.view view.now) path.now) }
{
    push_page_link(out, heap, view, path, false)?;
    push_path_span(out, path)
}

/// Writes a link to where a page is edited, or begun; its text is escaped.
pub fn push_edit_link(out: &mut String, place: &str, text: &str) -> Result<(), Memory>
    ensures { OnOk result (string_bytes out.new
        ≡ string_bytes out.old ++ link (edit_href place.now) text.now) }
{
    push_link_start(out)?;
    push_edit_href(out, place)?;
    push_link_end(out, false, text)
}
