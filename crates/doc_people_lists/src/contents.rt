//! The contents of a folder.

ghost use Rattle.std.specs.Prelude.{◌≡◌, ◌++◌, [], codes, string_bytes, slice_get, take, IfOk, OnOk, option_copied};
ghost use Rattle.std.specs.List.{flat_map};
ghost use Rattle.doc_page_parts.specs.Escaping.{escaped};
ghost use Rattle.doc_people.specs.Folders.{contents_href, folder_label, sees_folder};
ghost use Rattle.doc_people.specs.Limits.{list_limit};
ghost use Rattle.doc_people.specs.Lines.{folder_item, link};
ghost use Rattle.doc_people.specs.Lists.{contents_body, contents_line, contents_title, list_or_note, note_from, page_line, pager, path_span};

use crate::fronts::{ENTRY_ROOM, LIST_LIMIT, next_key, shown_keys};
use crate::parts::{push_list_end, push_list_start, push_note_from, push_pager};
use doc_page_parts::escaping::push_escaped;
use doc_page_parts::failure::Memory;
use doc_page_parts::heap::{Heap, String};
use doc_page_parts::text::Text;
use doc_people::viewed::Viewed;
use doc_people_lines::addresses::push_contents_href;
use doc_people_lines::lines::push_path_span;
use doc_people_lines::links::{push_contents_link, push_page_and_path};
use doc_people_lines::texts::is_folder;
use doc_people_lines::titles::folder_label;
use doc_people_shell::frame::Frame;
use doc_people_shell::shell::shell;

/// The page for people that lists what stands in a folder from a text on.
pub fn contents_body<V: Viewed>(
    frame: Frame<'_>,
    view: &V,
    folder: &str,
    from: &str,
) -> Result<Text, Memory>
    ensures { IfOk result (λ text. text ≡ contents_body (V.render view.now) frame.entry.browse.now
        frame.entry.offers (V.view view.now) folder.now from.now) }
{
    let keys = view.keys_from(folder, from, LIST_LIMIT + 1)?;
    let title = contents_title(frame.heap, view, folder)?;
    let room = keys.get().len().saturating_mul(ENTRY_ROOM);
    let mut main = String::with_capacity(frame.heap, room)?;
    push_contents_main(
        &mut main,
        frame.heap,
        view,
        title.get(),
        folder,
        from,
        keys.get(),
    )?;
    shell(frame, view, title.get(), Some(folder), main.as_str(), "")
}

/// Whether a folder is seen: whether a page is seen below it.
pub fn sees_folder<V: Viewed>(view: &V, folder: &str) -> Result<bool, Memory>
    ensures { IfOk result (λ seen. seen ≡ sees_folder (V.view view.now) folder.now) }
{
    let first = view.keys_from(folder, "", 1)?;
    Ok(!first.get().is_empty())
}

/// The title of the contents of a folder.
fn contents_title<V: Viewed>(heap: Heap, view: &V, folder: &str) -> Result<Text, Memory>
    ensures { IfOk result (λ title.
        title ≡ contents_title (V.render view.now) (V.view view.now) folder.now) }
{
    if folder.is_empty() {
        return Text::copy_of(heap, "Contents");
    }
    folder_label(heap, view, folder)
}

/// Writes what stands in a folder from a text on, as far as it is shown, or in its place that there is nothing.
fn push_keys<V: Viewed>(
    out: &mut String,
    heap: Heap,
    view: &V,
    from: &str,
    keys: &[Text],
) -> Result<(), Memory>
    ensures { OnOk result (string_bytes out.new ≡ string_bytes out.old
        ++ list_or_note (contents_line (V.render view.now) (V.view view.now))
        (note_from from.now (codes "There is no page that you may read.")) keys.now) }
{
    if keys.is_empty() {
        return push_note_from(out, from, "There is no page that you may read.");
    }
    push_list_start(out)?;
    push_lines(out, heap, view, keys)?;
    push_list_end(out)
}

fn push_lines<V: Viewed>(
    out: &mut String,
    heap: Heap,
    view: &V,
    keys: &[Text],
) -> Result<(), Memory>
    ensures { OnOk result (string_bytes out.new ≡ string_bytes out.old
        ++ flat_map (contents_line (V.render view.now) (V.view view.now)) keys.now) }
{
    for key in keys {
        push_line(out, heap, view, key)?;
    }
    Ok(())
}

fn push_line<V: Viewed>(out: &mut String, heap: Heap, view: &V, key: &Text) -> Result<(), Memory>
    ensures { OnOk result (string_bytes out.new ≡ string_bytes out.old
        ++ contents_line (V.render view.now) (V.view view.now) key.now) }
{
    if is_folder(key.get()) {
        return push_folder_line(out, heap, view, key.get());
    }
    push_page_line(out, heap, view, key.get())
}

fn push_folder_line<V: Viewed>(
    out: &mut String,
    heap: Heap,
    view: &V,
    key: &str,
) -> Result<(), Memory>
    ensures { OnOk result (string_bytes out.new ≡ string_bytes out.old ++ folder_item
        (link (contents_href key.now) (folder_label (V.render view.now) (V.view view.now) key.now)
        ++ path_span key.now)) }
{
    out.push_str("<li class=\"dir\">")?;
    push_contents_link(out, heap, view, key, false)?;
    push_path_span(out, key)?;
    out.push_str("</li>\n")?;
    Ok(())
}

fn push_page_line<V: Viewed>(
    out: &mut String,
    heap: Heap,
    view: &V,
    key: &str,
) -> Result<(), Memory>
    ensures { OnOk result (string_bytes out.new ≡ string_bytes out.old
        ++ page_line (V.render view.now) (V.view view.now) key.now []) }
{
    out.push_str("<li>")?;
    push_page_and_path(out, heap, view, key)?;
    out.push_str("</li>\n")?;
    Ok(())
}

fn push_heading(out: &mut String, title: &str) -> Result<(), Memory>
    ensures { OnOk result (string_bytes out.new ≡ string_bytes out.old
        ++ (codes "<h1>" ++ escaped title.now ++ codes "</h1>\n")) }
{
    out.push_str("<h1>")?;
    push_escaped(out, title)?;
    out.push_str("</h1>\n")?;
    Ok(())
}

/// Writes the links to the other parts of the contents of a folder.
fn push_contents_pager(
    out: &mut String,
    heap: Heap,
    folder: &str,
    from: &str,
    next: Option<&str>,
) -> Result<(), Memory>
    ensures { OnOk result (string_bytes out.new ≡ string_bytes out.old
        ++ pager (contents_href folder.now) from.now (option_copied next.entry)) }
{
    let mut address = String::new(heap);
    push_contents_href(&mut address, folder)?;
    push_pager(out, address.as_str(), from, next)
}

/// Writes the main part of the contents of a folder from a text on, of one entry more than is shown.
fn push_contents_main<V: Viewed>(
    out: &mut String,
    heap: Heap,
    view: &V,
    title: &str,
    folder: &str,
    from: &str,
    keys: &[Text],
) -> Result<(), Memory>
    ensures { OnOk result (string_bytes out.new ≡ string_bytes out.old
        ++ (codes "<h1>" ++ escaped title.now ++ codes "</h1>\n"
        ++ list_or_note (contents_line (V.render view.now) (V.view view.now))
        (note_from from.now (codes "There is no page that you may read."))
        (take list_limit keys.now)
        ++ pager (contents_href folder.now) from.now (slice_get keys.now list_limit))) }
{
    push_heading(out, title)?;
    push_keys(out, heap, view, from, shown_keys(keys))?;
    push_contents_pager(out, heap, folder, from, next_key(keys))
}
