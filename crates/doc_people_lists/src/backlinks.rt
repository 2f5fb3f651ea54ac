//! The pages that link to one.

ghost use Rattle.std.specs.Prelude.{◌≡◌, ◌++◌, codes, decimal, string_bytes, slice_get, take, IfOk, OnOk, Some, option_copied, option_map, ◌==◌, if◌then◌else◌};
ghost use Rattle.std.specs.List.{flat_map};
ghost use Rattle.doc_people.specs.Folders.{label, page_href};
ghost use Rattle.doc_people.specs.Limits.{list_limit};
ghost use Rattle.doc_people.specs.Lines.{link};
ghost use Rattle.doc_people.specs.Lists.{backlink_line, backlinks_body, link_count, list_or_note, note_from, pager};
ghost use Rattle.doc_people.specs.Pages.{backlinks_href};
ghost use Rattle.doc_store_readers.specs.Pages.{Page};
ghost use Rattle.doc_store_readers.specs.Sites.{page_at};

use crate::fronts::{ENTRY_ROOM, LIST_LIMIT, next_source, shown_sources};
use crate::parts::{push_list_end, push_list_start, push_note_from, push_pager};
use doc_page_parts::failure::Memory;
use doc_page_parts::heap::{Heap, String};
use doc_page_parts::path::Path;
use doc_page_parts::text::Text;
use doc_people::viewed::Viewed;
use doc_people_lines::addresses::push_backlinks_href;
use doc_people_lines::links::{push_page_and_path, push_page_link};
use doc_people_lines::number::push_number;
use doc_people_lines::texts::folder_of;
use doc_people_lines::titles::label;
use doc_people_shell::frame::Frame;
use doc_people_shell::shell::shell;

/// The page for people that lists the pages that link to one which is seen, from a text on.
pub fn backlinks_body<V: Viewed>(
    frame: Frame<'_>,
    view: &V,
    path: &Path,
    from: &str,
) -> Result<Text, Memory>
    ensures { (page : Page) → page_at (V.view view.now).pages path.now ≡ Some page
        → IfOk result (λ text. text ≡ backlinks_body (V.render view.now) frame.entry.browse.now
        frame.entry.offers (V.view view.now) path.now from.now) }
{
    let sources = view.sources_from(path, from, LIST_LIMIT + 1)?;
    let title = backlinks_title(frame.heap, view, path.text())?;
    let folder = folder_of(path.text());
    let room = sources.get().len().saturating_mul(ENTRY_ROOM);
    let mut main = String::with_capacity(frame.heap, room)?;
    push_backlinks_main(
        &mut main,
        frame.heap,
        view,
        path.text(),
        from,
        sources.get(),
    )?;
    shell(frame, view, title.get(), Some(folder), main.as_str(), "")
}

/// Writes the pages with links from a text on, as far as they are shown, or in their place that there is none.
fn push_sources<V: Viewed>(
    out: &mut String,
    heap: Heap,
    view: &V,
    from: &str,
    sources: &[(Path, u64)],
) -> Result<(), Memory>
    ensures { OnOk result (string_bytes out.new ≡ string_bytes out.old
        ++ list_or_note (backlink_line (V.render view.now) (V.view view.now))
        (note_from from.now (codes "No other page links here.")) sources.now) }
{
    if sources.is_empty() {
        return push_note_from(out, from, "No other page links here.");
    }
    push_list_start(out)?;
    push_lines(out, heap, view, sources)?;
    push_list_end(out)
}

fn push_lines<V: Viewed>(
    out: &mut String,
    heap: Heap,
    view: &V,
    sources: &[(Path, u64)],
) -> Result<(), Memory>
    ensures { OnOk result (string_bytes out.new ≡ string_bytes out.old
        ++ flat_map (backlink_line (V.render view.now) (V.view view.now)) sources.now) }
{
    for source in sources {
        push_line(out, heap, view, source)?;
    }
    Ok(())
}

fn push_line<V: Viewed>(
    out: &mut String,
    heap: Heap,
    view: &V,
    source: &(Path, u64),
) -> Result<(), Memory>
    ensures { OnOk result (string_bytes out.new ≡ string_bytes out.old
        ++ backlink_line (V.render view.now) (V.view view.now) source.now) }
{
    let (path, count) = source;
    out.push_str("<li>")?;
    push_page_and_path(out, heap, view, path.text())?;
    push_link_count(out, *count)?;
    out.push_str("</li>\n")?;
    Ok(())
}

/// Writes how many links there are.
fn push_link_count(out: &mut String, count: u64) -> Result<(), Memory>
    ensures { OnOk result (string_bytes out.new ≡ string_bytes out.old ++ link_count count) }
{
    out.push_str(" ")?;
    push_number(out, count)?;
    out.push_str(links_word(count))?;
    Ok(())
}

fn links_word(count: u64) -> &'static str
    ensures { result.now ≡ (if count == 1 then codes " link" else codes " links") }
{
    if count == 1 { " link" } else { " links" }
}

fn push_heading<V: Viewed>(out: &mut String, heap: Heap, view: &V, path: &str) -> Result<(), Memory>
    ensures { OnOk result (string_bytes out.new ≡ string_bytes out.old
        ++ (codes "<h1>Pages that link to "
        ++ link (page_href path.now) (label (V.render view.now) (V.view view.now) path.now)
        ++ codes "</h1>\n")) }
{
    out.push_str("<h1>Pages that link to ")?;
    push_page_link(out, heap, view, path, false)?;
    out.push_str("</h1>\n")?;
    Ok(())
}

/// Writes the links to the other parts of the list.
fn push_backlinks_pager(
    out: &mut String,
    heap: Heap,
    path: &str,
    from: &str,
    next: Option<&str>,
) -> Result<(), Memory>
    ensures { OnOk result (string_bytes out.new ≡ string_bytes out.old
        ++ pager (backlinks_href path.now) from.now (option_copied next.entry)) }
{
    let mut address = String::new(heap);
    push_backlinks_href(&mut address, path)?;
    push_pager(out, address.as_str(), from, next)
}

/// The title of the list.
fn backlinks_title<V: Viewed>(heap: Heap, view: &V, path: &str) -> Result<Text, Memory>
    ensures { IfOk result (λ title.
        title ≡ codes "Pages that link to "
        ++ label (V.render view.now) (V.view view.now) path.now) }
{
    let label = label(heap, view, path)?;
    let mut title = String::from_str(heap, "Pages that link to ")?;
    title.push_str(label.get())?;
    Ok(Text::new(title))
}

/// Writes the main part of the pages that link to one from a text on, of one entry more than is shown.
fn push_backlinks_main<V: Viewed>(
    out: &mut String,
    heap: Heap,
    view: &V,
    path: &str,
    from: &str,
    sources: &[(Path, u64)],
) -> Result<(), Memory>
    ensures { OnOk result (string_bytes out.new ≡ string_bytes out.old
        ++ (codes "<h1>Pages that link to "
        ++ link (page_href path.now) (label (V.render view.now) (V.view view.now) path.now)
        ++ codes "</h1>\n"
        ++ list_or_note (backlink_line (V.render view.now) (V.view view.now))
        (note_from from.now (codes "No other page links here.")) (take list_limit sources.now)
        ++ pager (backlinks_href path.now) from.now
        (option_map (λ source. source.0) (slice_get sources.now list_limit)))) }
{
    push_heading(out, heap, view, path)?;
    push_sources(out, heap, view, from, shown_sources(sources))?;
    push_backlinks_pager(out, heap, path, from, next_source(sources))
}
