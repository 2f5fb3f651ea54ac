//! What stands around a place in its folder.

ghost use Rattle.std.specs.Prelude.{◌≡◌, ◌++◌, option_copied, string_bytes, OnOk};
ghost use Rattle.std.specs.List.{flat_map};
ghost use Rattle.doc_people.specs.Folders.{contents_href, folder_href, folder_label, index_of, keys};
ghost use Rattle.doc_people.specs.Lines.{folder_item, link};
ghost use Rattle.doc_people.specs.Navigation.{all_line, folder_at, top_line, tree, tree_item, tree_items, tree_keys, up_line};
ghost use Rattle.doc_people_shell.specs.Items.{all_line_if, listed_if, shown_item};
ghost use Rattle.doc_people_shell.specs.Windows.{shown_of};

use crate::around::{Around, folder_at, is_at, keys_around};
use doc_page_parts::failure::Memory;
use doc_page_parts::heap::{Heap, String};
use doc_page_parts::text::Text;
use doc_people::viewed::Viewed;
use doc_people_lines::addresses::push_contents_href;
use doc_people_lines::lines::{push_link_end, push_link_start};
use doc_people_lines::links::{push_folder_link, push_page_link};
use doc_people_lines::texts::{index_of, is_folder, parent};

/// Writes the pages and folders of the folder of a place, or of the empty one.
#[tactic(auto, unfolding(doc_people::specs::Navigation::tree))]
pub(crate) fn push_tree<V: Viewed>(
    out: &mut String,
    heap: Heap,
    view: &V,
    at: Option<&str>,
) -> Result<(), Memory>
    ensures { OnOk result (string_bytes out.new ≡ string_bytes out.old
        ++ tree (V.render view.now) (V.view view.now) (option_copied at.entry)) }
{
    out.push_str("<nav class=\"tree\" id=\".pages\" aria-label=\"Pages\">\n")?;
    push_up_line(out, heap, view, folder_at(at))?;
    push_top_line(out, heap, view, at)?;
    push_keys(out, heap, view, at)?;
    out.push_str("</nav>\n")?;
    Ok(())
}

/// Writes what stands in the folder, and a link to all of it, where not all is shown.
fn push_keys<V: Viewed>(
    out: &mut String,
    heap: Heap,
    view: &V,
    at: Option<&str>,
) -> Result<(), Memory>
    ensures { OnOk result (string_bytes out.new ≡ string_bytes out.old
        ++ tree_items (V.render view.now) (V.view view.now) (option_copied at.entry)
        (tree_keys (V.view view.now) (option_copied at.entry))
        ++ all_line (option_copied at.entry) (folder_at (option_copied at.entry))
        (keys (V.view view.now) (folder_at (option_copied at.entry)))) }
{
    let around = keys_around(heap, view, at)?;
    push_items(out, heap, view, at, &around)?;
    push_all_line(out, folder_at(at), around.is_cut())?;
    Ok(())
}

/// Writes the folder that the folder stands in.
fn push_up_line<V: Viewed>(
    out: &mut String,
    heap: Heap,
    view: &V,
    folder: &str,
) -> Result<(), Memory>
    ensures { OnOk result (string_bytes out.new ≡ string_bytes out.old
        ++ up_line (V.render view.now) (V.view view.now) folder.now) }
{
    if folder.is_empty() {
        return Ok(());
    }
    out.push_str("<p class=\"up\">")?;
    push_folder_link(out, heap, view, parent(folder), false)?;
    out.push_str("</p>\n")?;
    Ok(())
}

/// Writes the folder.
fn push_top_line<V: Viewed>(
    out: &mut String,
    heap: Heap,
    view: &V,
    at: Option<&str>,
) -> Result<(), Memory>
    ensures { OnOk result (string_bytes out.new ≡ string_bytes out.old
        ++ top_line (V.render view.now) (V.view view.now) (option_copied at.entry)
        (folder_at (option_copied at.entry))) }
{
    let folder = folder_at(at);
    let index = index_of(heap, folder)?;
    out.push_str("<p class=\"top\">")?;
    push_folder_link(out, heap, view, folder, is_at(at, index.get()))?;
    out.push_str("</p>\n")?;
    Ok(())
}

/// Writes all that stands in the folder, where not all is shown.
fn push_all_line(out: &mut String, folder: &str, cut: bool) -> Result<(), Memory>
    ensures { OnOk result (string_bytes out.new ≡ string_bytes out.old
        ++ all_line_if cut folder.now) }
{
    if !cut {
        return Ok(());
    }
    out.push_str("<p class=\"all\">")?;
    push_link_to_contents(out, folder, "All of this folder")?;
    out.push_str("</p>\n")?;
    Ok(())
}

/// Writes a link to all that stands in a folder.
fn push_link_to_contents(out: &mut String, folder: &str, text: &str) -> Result<(), Memory>
    ensures { OnOk result (string_bytes out.new
        ≡ string_bytes out.old ++ link (contents_href folder.now) text.now) }
{
    push_link_start(out)?;
    push_contents_href(out, folder)?;
    push_link_end(out, false, text)
}

/// Writes what is shown as a list, or nothing where there is none.
fn push_items<V: Viewed>(
    out: &mut String,
    heap: Heap,
    view: &V,
    at: Option<&str>,
    around: &Around,
) -> Result<(), Memory>
    ensures { OnOk result (string_bytes out.new ≡ string_bytes out.old
        ++ listed_if (flat_map (shown_item (V.render view.now) (V.view view.now)
        (option_copied at.entry) (index_of (folder_at (option_copied at.entry))))
        (shown_of around.now.before around.now.from))) }
{
    let index = index_of(heap, folder_at(at))?;
    let mut items = String::new(heap);
    push_entries(
        &mut items,
        heap,
        view,
        at,
        index.get(),
        around.shown_before(),
    )?;
    push_entries(&mut items, heap, view, at, index.get(), around.shown_from())?;
    push_listed(out, items.as_str())?;
    Ok(())
}

/// Writes lines as a list, or nothing where there is none.
fn push_listed(out: &mut String, lines: &str) -> Result<(), Memory>
    ensures { OnOk result (string_bytes out.new ≡ string_bytes out.old ++ listed_if lines.now) }
{
    if lines.is_empty() {
        return Ok(());
    }
    out.push_str("<ul>\n")?;
    out.push_str(lines)?;
    out.push_str("</ul>\n")?;
    Ok(())
}

/// Writes pages and folders, without the page that stands for the folder.
fn push_entries<V: Viewed>(
    out: &mut String,
    heap: Heap,
    view: &V,
    at: Option<&str>,
    index: &str,
    keys: &[Text],
) -> Result<(), Memory>
    ensures { OnOk result (string_bytes out.new ≡ string_bytes out.old
        ++ flat_map (shown_item (V.render view.now) (V.view view.now) (option_copied at.entry)
        index.now) keys.now) }
{
    for key in keys {
        push_entry(out, heap, view, at, index, key.get())?;
    }
    Ok(())
}

/// Writes a page or a folder, unless it is the page that stands for the folder.
fn push_entry<V: Viewed>(
    out: &mut String,
    heap: Heap,
    view: &V,
    at: Option<&str>,
    index: &str,
    key: &str,
) -> Result<(), Memory>
    ensures { OnOk result (string_bytes out.new ≡ string_bytes out.old
        ++ shown_item (V.render view.now) (V.view view.now) (option_copied at.entry) index.now
        key.now) }
{
    if key == index {
        return Ok(());
    }
    push_tree_item(out, heap, view, at, key)
}

/// Writes a page or a folder.
fn push_tree_item<V: Viewed>(
    out: &mut String,
    heap: Heap,
    view: &V,
    at: Option<&str>,
    key: &str,
) -> Result<(), Memory>
    ensures { OnOk result (string_bytes out.new ≡ string_bytes out.old
        ++ tree_item (V.render view.now) (V.view view.now) (option_copied at.entry) key.now) }
{
    if is_folder(key) {
        return push_folder_item(out, heap, view, key);
    }
    out.push_str("<li>")?;
    push_page_link(out, heap, view, key, is_at(at, key))?;
    out.push_str("</li>\n")?;
    Ok(())
}

/// Writes a folder.
fn push_folder_item<V: Viewed>(
    out: &mut String,
    heap: Heap,
    view: &V,
    key: &str,
) -> Result<(), Memory>
    ensures { OnOk result (string_bytes out.new ≡ string_bytes out.old
        ++ folder_item (link (folder_href (V.view view.now) key.now)
        (folder_label (V.render view.now) (V.view view.now) key.now))) }
{
    out.push_str("<li class=\"dir\">")?;
    push_folder_link(out, heap, view, key, false)?;
    out.push_str("</li>\n")?;
    Ok(())
}
