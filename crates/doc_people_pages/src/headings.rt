//! The headings of a page: the one of level 1 that the page hasn't itself, and those that are listed beside it.

ghost use Rattle.std.specs.Prelude.{◌≡◌, ◌++◌, [], Some, None, codes, decimal, filter, take, string_bytes, OnOk};
ghost use Rattle.std.specs.List.{flat_map, list_any};
ghost use Rattle.doc_page_encoding.specs.Encoding.{encoded};
ghost use Rattle.doc_people.specs.Folders.{short};
ghost use Rattle.doc_people.specs.Limits.{heading_limit};
ghost use Rattle.doc_people.specs.Lines.{link, listed};
ghost use Rattle.doc_people.specs.Pages.{behind_title, has_text, heading_by, heading_item, heading_line, is_main, listed_headings, on_this_page};
ghost use Rattle.doc_people_pages.specs.Listed.{is_listed};

use doc_page_encoding::encoding::push_encoded;
use doc_page_parts::escaping::push_escaped;
use doc_page_parts::failure::Memory;
use doc_page_parts::heap::{Heap, String};
use doc_page_parts::rendered::Heading;
use doc_people_lines::lines::{push_link_end, push_link_start};
use doc_people_lines::number::push_number;
use doc_people_lines::titles::{first_text, short};

/// How many headings are listed at most.
const HEADING_LIMIT: usize = 100;

/// The deepest level of a heading that is listed.
const LEVEL_LIMIT: u8 = 3;

/// Writes the list of the headings of a page, but for its title and those that are too deep; nothing where none is left.
pub(crate) fn push_on_this_page(
    out: &mut String,
    heap: Heap,
    headings: &[Heading],
) -> Result<(), Memory>
    ensures { OnOk result (string_bytes out.new
        ≡ string_bytes out.old ++ on_this_page (listed_headings headings.now)) }
{
    let headings = behind_title(headings);
    if !has_listed(headings) {
        return Ok(());
    }
    push_list(out, heap, headings)
}

fn push_list(out: &mut String, heap: Heap, headings: &[Heading]) -> Result<(), Memory>
    ensures { OnOk result (string_bytes out.new ≡ string_bytes out.old
        ++ (codes "<h2>On this page</h2>\n"
        ++ listed (flat_map heading_item (take heading_limit (filter is_listed headings.now))))) }
{
    out.push_str("<h2>On this page</h2>\n<ul>\n")?;
    push_heading_items(out, heap, headings)?;
    out.push_str("</ul>\n")?;
    Ok(())
}

/// The headings behind the first that has a text, where that is of level 1 and so the page's title, and else from it on.
fn behind_title(headings: &[Heading]) -> &[Heading]
    ensures { filter has_text result.now ≡ behind_title (filter has_text headings.now) }
{
    for (i, heading) in headings.iter().enumerate() {
        if !has_text(heading) {
            continue;
        }
        if heading.level == 1 {
            return &headings[i + 1..];
        }
        return &headings[i..];
    }
    headings
}

/// Whether a heading has a text.
fn has_text(heading: &Heading) -> bool
    ensures { result ≡ has_text heading.now }
{
    !heading.text.get().is_empty()
}

/// Whether a heading has a text and isn't too deep.
fn is_listed(heading: &Heading) -> bool
    ensures { result ≡ is_listed heading.now }
{
    heading.level <= LEVEL_LIMIT && has_text(heading)
}

/// Whether some heading is listed.
fn has_listed(headings: &[Heading]) -> bool
    ensures { result ≡ list_any is_listed headings.now }
{
    headings.iter().any(|heading| is_listed(heading))
}

/// Writes the headings that are listed, as many as there may be.
fn push_heading_items(out: &mut String, heap: Heap, headings: &[Heading]) -> Result<(), Memory>
    ensures { OnOk result (string_bytes out.new ≡ string_bytes out.old
        ++ flat_map heading_item (take heading_limit (filter is_listed headings.now))) }
{
    for heading in headings
        .iter()
        .filter(|heading| is_listed(*heading))
        .take(HEADING_LIMIT)
    {
        push_heading_item(out, heap, heading)?;
    }
    Ok(())
}

fn push_heading_item(out: &mut String, heap: Heap, heading: &Heading) -> Result<(), Memory>
    ensures { OnOk result (string_bytes out.new
        ≡ string_bytes out.old ++ heading_item heading.now) }
{
    push_item_start(out, heading.level)?;
    push_heading_link(out, heap, heading)?;
    out.push_str("</li>\n")?;
    Ok(())
}

fn push_item_start(out: &mut String, level: u8) -> Result<(), Memory>
    ensures { OnOk result (string_bytes out.new ≡ string_bytes out.old
        ++ (codes "<li class=\"h" ++ decimal level ++ codes "\">")) }
{
    out.push_str("<li class=\"h")?;
    push_number(out, u64::from(level))?;
    out.push_str("\">")?;
    Ok(())
}

fn push_heading_link(out: &mut String, heap: Heap, heading: &Heading) -> Result<(), Memory>
    ensures { OnOk result (string_bytes out.new ≡ string_bytes out.old
        ++ link (codes "#" ++ encoded heading.now.anchor) (short heading.now.text)) }
{
    let text = short(heap, heading.text.get())?;
    push_link_start(out)?;
    push_heading_address(out, heading.anchor.get())?;
    push_link_end(out, false, text.get())
}

fn push_heading_address(out: &mut String, anchor: &str) -> Result<(), Memory>
    ensures { OnOk result (string_bytes out.new
        ≡ string_bytes out.old ++ (codes "#" ++ encoded anchor.now)) }
{
    out.push_str("#")?;
    push_encoded(out, anchor)
}

/// Writes the heading of level 1 that the page hasn't itself: for all its path, where no heading has a text, and else the first of these
/// for those who hear the page.
pub(crate) fn push_heading_line(
    out: &mut String,
    path: &str,
    headings: &[Heading],
) -> Result<(), Memory>
    ensures { OnOk result (string_bytes out.new
        ≡ string_bytes out.old ++ heading_line path.now headings.now) }
{
    if has_main(headings) {
        return Ok(());
    }
    match first_text(headings) {
        None => push_path_heading(out, path),
        Some(text) => push_heard_heading(out, text),
    }
}

fn push_path_heading(out: &mut String, path: &str) -> Result<(), Memory>
    ensures { OnOk result (string_bytes out.new
        ≡ string_bytes out.old ++ heading_by path.now None) }
{
    out.push_str("<h1>")?;
    push_escaped(out, path)?;
    out.push_str("</h1>\n")?;
    Ok(())
}

fn push_heard_heading(out: &mut String, text: &str) -> Result<(), Memory>
    ensures { OnOk result (string_bytes out.new
        ≡ string_bytes out.old ++ heading_by [] (Some text.now)) }
{
    out.push_str("<h1 class=\"sr\">")?;
    push_escaped(out, text)?;
    out.push_str("</h1>\n")?;
    Ok(())
}

/// Whether some heading is of level 1 and has a text.
fn has_main(headings: &[Heading]) -> bool
    ensures { result ≡ list_any is_main headings.now }
{
    headings.iter().any(|heading| is_main(heading))
}

fn is_main(heading: &Heading) -> bool
    ensures { result ≡ is_main heading.now }
{
    heading.level == 1 && has_text(heading)
}
