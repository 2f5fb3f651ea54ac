//! The pages that link to a page, beside it.

ghost use Rattle.std.specs.Prelude.{◌≡◌, ◌++◌, codes, string_bytes, take, OnOk, Some};
ghost use Rattle.std.specs.List.{flat_map};
ghost use Rattle.doc_people.specs.Limits.{aside_limit};
ghost use Rattle.doc_people.specs.Lines.{item, link, listed};
ghost use Rattle.doc_people.specs.Pages.{all_sources_line, backlinks_href, linked_from, source_item};
ghost use Rattle.doc_people.specs.Sources.{sources_of};
ghost use Rattle.doc_store_readers.specs.Pages.{Page};
ghost use Rattle.doc_store_readers.specs.Sites.{page_at};

use doc_page_parts::failure::Memory;
use doc_page_parts::heap::{Heap, String};
use doc_page_parts::path::Path;
use doc_people::viewed::Viewed;
use doc_people_lines::addresses::push_backlinks_href;
use doc_people_lines::lines::{push_link_end, push_link_start};
use doc_people_lines::links::push_page_link;

/// How many pages are listed at most.
const ASIDE_LIMIT: usize = 20;

/// Writes the list of the other pages that link to a page that is seen; nothing where there is none. One more is asked for than is shown,
/// so that it can be said that there are more.
pub(crate) fn push_linked_from<V: Viewed>(
    out: &mut String,
    heap: Heap,
    view: &V,
    path: &Path,
) -> Result<(), Memory>
    ensures { (page : Page) → page_at (V.view view.now).pages path.now ≡ Some page
        → OnOk result (string_bytes out.new ≡ string_bytes out.old
        ++ linked_from (V.render view.now) (V.view view.now) path.now
        (sources_of (V.render view.now) (V.view view.now) path.now)) }
{
    let sources = view.sources_from(path, "", ASIDE_LIMIT + 1)?;
    push_sources(out, heap, view, path.text(), sources.get())
}

fn push_sources<V: Viewed>(
    out: &mut String,
    heap: Heap,
    view: &V,
    path: &str,
    sources: &[(Path, u64)],
) -> Result<(), Memory>
    ensures { OnOk result (string_bytes out.new ≡ string_bytes out.old
        ++ linked_from (V.render view.now) (V.view view.now) path.now sources.now) }
{
    if sources.is_empty() {
        return Ok(());
    }
    push_source_list(out, heap, view, shown(sources))?;
    push_all_sources_line(out, path, sources)
}

/// Those that are listed.
fn shown(sources: &[(Path, u64)]) -> &[(Path, u64)]
    ensures { result.now ≡ take aside_limit sources.now }
{
    if sources.len() < ASIDE_LIMIT {
        return sources;
    }
    &sources[..ASIDE_LIMIT]
}

fn push_source_list<V: Viewed>(
    out: &mut String,
    heap: Heap,
    view: &V,
    sources: &[(Path, u64)],
) -> Result<(), Memory>
    ensures { OnOk result (string_bytes out.new ≡ string_bytes out.old
        ++ (codes "<h2>Linked from</h2>\n" ++ listed
        (flat_map (source_item (V.render view.now) (V.view view.now)) sources.now))) }
{
    out.push_str("<h2>Linked from</h2>\n<ul>\n")?;
    push_source_items(out, heap, view, sources)?;
    out.push_str("</ul>\n")?;
    Ok(())
}

fn push_source_items<V: Viewed>(
    out: &mut String,
    heap: Heap,
    view: &V,
    sources: &[(Path, u64)],
) -> Result<(), Memory>
    ensures { OnOk result (string_bytes out.new ≡ string_bytes out.old
        ++ flat_map (source_item (V.render view.now) (V.view view.now)) sources.now) }
{
    for source in sources {
        push_source_item(out, heap, view, source)?;
    }
    Ok(())
}

fn push_source_item<V: Viewed>(
    out: &mut String,
    heap: Heap,
    view: &V,
    source: &(Path, u64),
) -> Result<(), Memory>
    ensures { OnOk result (string_bytes out.new ≡ string_bytes out.old
        ++ source_item (V.render view.now) (V.view view.now) source.now) }
{
    out.push_str("<li>")?;
    push_page_link(out, heap, view, source.0.text(), false)?;
    out.push_str("</li>\n")?;
    Ok(())
}

/// Writes the link to the list of all of them, where there are more than are shown.
fn push_all_sources_line(
    out: &mut String,
    path: &str,
    sources: &[(Path, u64)],
) -> Result<(), Memory>
    ensures { OnOk result (string_bytes out.new
        ≡ string_bytes out.old ++ all_sources_line path.now sources.now) }
{
    if sources.len() <= ASIDE_LIMIT {
        return Ok(());
    }
    out.push_str("<p>")?;
    push_all_sources_link(out, path)?;
    out.push_str("</p>\n")?;
    Ok(())
}

fn push_all_sources_link(out: &mut String, path: &str) -> Result<(), Memory>
    ensures { OnOk result (string_bytes out.new ≡ string_bytes out.old
        ++ link (backlinks_href path.now) (codes "All that link here")) }
{
    push_link_start(out)?;
    push_backlinks_href(out, path)?;
    push_link_end(out, false, "All that link here")
}
