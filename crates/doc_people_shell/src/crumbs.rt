//! The folders that lead to a place.

ghost use Rattle.std.specs.Prelude.{◌≡◌, ◌++◌, [], option_copied, string_bytes, OnOk};
ghost use Rattle.doc_people.specs.Folders.{folder_label};
ghost use Rattle.doc_people.specs.Lines.{link_or_current};
ghost use Rattle.doc_people.specs.Navigation.{crumb, crumb_href, crumbs, is_of};
ghost use Rattle.doc_people.specs.Shell.{over};

use crate::frame::Frame;
use crate::tools::push_tools;
use doc_page_parts::failure::Memory;
use doc_page_parts::heap::{Heap, String};
use doc_people::viewed::Viewed;
use doc_people_lines::links::{push_contents_link, push_folder_link};
use doc_people_lines::texts::index_of;

/// Writes the folders that lead to a place, and the tools, above the page; nothing at none.
pub(crate) fn push_over<V: Viewed>(
    out: &mut String,
    frame: Frame<'_>,
    view: &V,
    at: Option<&str>,
) -> Result<(), Memory>
    ensures { OnOk result (string_bytes out.new ≡ string_bytes out.old ++ over
        (V.render view.now) frame.entry.offers (V.view view.now) (option_copied at.entry)) }
{
    match at {
        Some(place) => push_over_at(out, frame, view, place),
        None => Ok(()),
    }
}

/// Writes what stands above the page at a place.
fn push_over_at<V: Viewed>(
    out: &mut String,
    frame: Frame<'_>,
    view: &V,
    place: &str,
) -> Result<(), Memory>
    ensures { OnOk result (string_bytes out.new ≡ string_bytes out.old ++ over
        (V.render view.now) frame.entry.offers (V.view view.now) (Some place.now)) }
{
    out.push_str("<div class=\"over\">\n<nav class=\"crumbs\" aria-label=\"Folders\">\n<ol>\n")?;
    push_crumbs(out, frame.heap, view, place)?;
    out.push_str("</ol>\n</nav>\n")?;
    push_tools(out, frame.offers.tools, Some(place))?;
    out.push_str("</div>\n")?;
    Ok(())
}

/// Writes all folders that lead to a place, from the empty one on.
fn push_crumbs<V: Viewed>(out: &mut String, heap: Heap, view: &V, place: &str) -> Result<(), Memory>
    ensures { OnOk result (string_bytes out.new ≡ string_bytes out.old
        ++ crumbs (V.render view.now) (V.view view.now) place.now) }
{
    push_crumb(out, heap, view, place, "")?;
    for (i, byte) in place.as_bytes().iter().enumerate() {
        if *byte != b'/' {
            continue;
        }
        push_crumb(out, heap, view, place, &place[..i + 1])?;
    }
    Ok(())
}

/// Writes a folder that leads to a place.
fn push_crumb<V: Viewed>(
    out: &mut String,
    heap: Heap,
    view: &V,
    place: &str,
    folder: &str,
) -> Result<(), Memory>
    ensures { OnOk result (string_bytes out.new ≡ string_bytes out.old
        ++ crumb (V.render view.now) (V.view view.now) place.now folder.now) }
{
    out.push_str("<li>")?;
    push_crumb_link(out, heap, view, place, folder)?;
    out.push_str("</li>\n")?;
    Ok(())
}

/// Writes the link to a folder that leads to a place.
fn push_crumb_link<V: Viewed>(
    out: &mut String,
    heap: Heap,
    view: &V,
    place: &str,
    folder: &str,
) -> Result<(), Memory>
    ensures { OnOk result (string_bytes out.new ≡ string_bytes out.old
        ++ link_or_current (crumb_href (V.view view.now) place.now folder.now)
        (is_of folder.now place.now)
        (folder_label (V.render view.now) (V.view view.now) folder.now)) }
{
    if folder == place {
        return push_contents_link(out, heap, view, folder, true);
    }
    let index = index_of(heap, folder)?;
    push_folder_link(out, heap, view, folder, index.get() == place)
}
