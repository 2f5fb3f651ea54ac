//! Broken links and images that show nothing, page by page.

ghost use Rattle.std.specs.Prelude.{◌≡◌, ◌++◌, ◌-◌, ◌&&◌, codes, decimal, drop, length, option_copied, option_map, slice_get, string_bytes, take, IfOk, OnOk, Some};
ghost use Rattle.std.specs.List.{after_first, before_first, flat_map};
ghost use Rattle.doc_page_parts.specs.Escaping.{escaped};
ghost use Rattle.doc_resolve.specs.Links.{decoded_text};
ghost use Rattle.doc_people.specs.BrokenLinks.{begin_link, broken_body, broken_group, broken_head, broken_main, broken_row, by_source, dash, goal_cell, goal_href, image_cell, is_hash};
ghost use Rattle.doc_people.specs.BrokenLinks.{missing_heading, missing_page, more_row, reason_text, source_row, table_or_note, written_anchor, written_path};
ghost use Rattle.doc_people.specs.KeptPaths.{may_begin};
ghost use Rattle.doc_people.specs.Limits.{link_limit, source_limit};
ghost use Rattle.doc_people.specs.Lists.{note_from};

use crate::groups::front_len;
use crate::parts::{push_note_from, push_pager};
use doc_links_pages::answers::{Broken, Reason};
use doc_page_parts::escaping::push_escaped;
use doc_page_parts::failure::Memory;
use doc_page_parts::heap::{Heap, String};
use doc_page_parts::path::{Path, PathError};
use doc_page_parts::text::Text;
use doc_people::viewed::Viewed;
use doc_people_lines::addresses::push_page_href;
use doc_people_lines::links::{push_edit_link, push_page_and_path};
use doc_people_lines::number::push_number;
use doc_people_lines::titles::push_escaped_short;
use doc_people_shell::frame::Frame;
use doc_people_shell::shell::shell;
use percent_encoding::{DecodeError, percent_decode};

/// How many pages with broken links are shown at most.
const SOURCE_LIMIT: usize = 50;

/// How many links of each.
const LINK_LIMIT: usize = 50;

/// Room for a link: a guess, on which nothing rests.
const ROW_ROOM: usize = 128;

/// The page for people that lists the broken links of the pages from a text on, and their images that show nothing.
pub fn broken_body<V: Viewed>(frame: Frame<'_>, view: &V, from: &str) -> Result<Text, Memory>
    ensures { IfOk result (λ text. text ≡ broken_body (V.render view.now) frame.entry.browse.now
        frame.entry.offers (V.view view.now) (V.media view.now) from.now) }
{
    let links = view.broken_from(from)?;
    let rows = links.get().len().min(SOURCE_LIMIT * LINK_LIMIT);
    let mut main = String::with_capacity(frame.heap, rows.saturating_mul(ROW_ROOM))?;
    push_main(&mut main, frame, view, from, links.get())?;
    shell(frame, view, "Broken links", None, main.as_str(), "")
}

/// Writes the main part of the broken links of the pages from a text on.
fn push_main<V: Viewed>(
    out: &mut String,
    frame: Frame<'_>,
    view: &V,
    from: &str,
    links: &[Broken],
) -> Result<(), Memory>
    ensures { OnOk result (string_bytes out.new ≡ string_bytes out.old
        ++ broken_main (V.render view.now) frame.entry.offers (V.view view.now)
        (V.media view.now) from.now (by_source links.now)) }
{
    out.push_str("<h1>Broken links</h1>\n<p>A page that you may not read counts as none.</p>\n")?;
    let left = push_table(out, frame, view, from, links)?;
    push_pager(out, "/broken", from, first_page(left))
}

/// The page of the first link.
fn first_page(links: &[Broken]) -> Option<&str>
    ensures { option_copied result ≡ option_map (λ link. link.source) (slice_get links.now 0) }
{
    match links.first() {
        Some(link) => Some(link.source.text()),
        None => None,
    }
}

/// Writes the table of the first pages with broken links, or in its place that there are none, and says which links are left.
fn push_table<'a, V: Viewed>(
    out: &mut String,
    frame: Frame<'_>,
    view: &V,
    from: &str,
    links: &'a [Broken],
) -> Result<&'a [Broken], Memory>
    ensures written { OnOk result (string_bytes out.new ≡ string_bytes out.old ++ table_or_note
        (V.render view.now) frame.entry.offers (V.view view.now) (V.media view.now)
        (note_from from.now (codes "No link is broken on the pages that you may read."))
        (take source_limit (by_source links.now))) }
    ensures left { IfOk result (λ left. by_source left.now
        ≡ drop source_limit (by_source links.now)) }
{
    if links.is_empty() {
        push_note_from(
            out,
            from,
            "No link is broken on the pages that you may read.",
        )?;
        return Ok(links);
    }
    push_head(out)?;
    let left = push_groups(out, frame, view, links)?;
    out.push_str("</table>\n")?;
    Ok(left)
}

fn push_head(out: &mut String) -> Result<(), Memory>
    ensures { OnOk result (string_bytes out.new ≡ string_bytes out.old ++ broken_head) }
{
    out.push_str(
        "<table class=\"broken\">\n<thead>\n<tr><th scope=\"col\">Link</th><th scope=\"col\">Leads to</th>",
    )?;
    out.push_str("<th scope=\"col\">What is wrong</th></tr>\n</thead>\n")?;
    Ok(())
}

/// Writes the first pages with broken links, and says which links are left.
fn push_groups<'a, V: Viewed>(
    out: &mut String,
    frame: Frame<'_>,
    view: &V,
    links: &'a [Broken],
) -> Result<&'a [Broken], Memory>
    ensures written { OnOk result (string_bytes out.new ≡ string_bytes out.old ++ flat_map
        (broken_group (V.render view.now) frame.entry.offers (V.view view.now)
        (V.media view.now))
        (take source_limit (by_source links.now))) }
    ensures left { IfOk result (λ left. by_source left.now
        ≡ drop source_limit (by_source links.now)) }
{
    let mut rest = links;
    for _shown in 0..SOURCE_LIMIT {
        let Some(first) = rest.first() else {
            return Ok(rest);
        };
        let (group, behind) = rest.split_at(front_len(rest, first.source.text()));
        push_group(out, frame, view, first.source.text(), group)?;
        rest = behind;
    }
    Ok(rest)
}

/// Writes a page and its broken links.
fn push_group<V: Viewed>(
    out: &mut String,
    frame: Frame<'_>,
    view: &V,
    source: &str,
    links: &[Broken],
) -> Result<(), Memory>
    ensures { OnOk result (string_bytes out.new ≡ string_bytes out.old
        ++ broken_group (V.render view.now) frame.entry.offers (V.view view.now)
        (V.media view.now) (source.now, links.now)) }
{
    out.push_str("<tbody>\n")?;
    push_source_row(out, frame.heap, view, source)?;
    push_rows(out, frame, view, shown_links(links))?;
    push_more_row(out, links)?;
    out.push_str("</tbody>\n")?;
    Ok(())
}

fn push_source_row<V: Viewed>(
    out: &mut String,
    heap: Heap,
    view: &V,
    source: &str,
) -> Result<(), Memory>
    ensures { OnOk result (string_bytes out.new ≡ string_bytes out.old
        ++ source_row (V.render view.now) (V.view view.now) source.now) }
{
    out.push_str("<tr><th colspan=\"3\" scope=\"rowgroup\">")?;
    push_page_and_path(out, heap, view, source)?;
    out.push_str("</th></tr>\n")?;
    Ok(())
}

/// The links of a page that are shown.
fn shown_links(links: &[Broken]) -> &[Broken]
    ensures { result.now ≡ take link_limit links.now }
{
    if links.len() <= LINK_LIMIT {
        return links;
    }
    &links[..LINK_LIMIT]
}

/// Writes how many there are behind those.
fn push_more_row(out: &mut String, links: &[Broken]) -> Result<(), Memory>
    ensures { OnOk result (string_bytes out.new ≡ string_bytes out.old ++ more_row links.now) }
{
    if links.len() <= LINK_LIMIT {
        return Ok(());
    }
    out.push_str("<tr><td colspan=\"3\">and ")?;
    push_number(out, (links.len() - LINK_LIMIT) as u64)?;
    out.push_str(" more</td></tr>\n")?;
    Ok(())
}

fn push_rows<V: Viewed>(
    out: &mut String,
    frame: Frame<'_>,
    view: &V,
    links: &[Broken],
) -> Result<(), Memory>
    ensures { OnOk result (string_bytes out.new ≡ string_bytes out.old
        ++ flat_map (broken_row frame.entry.offers (V.view view.now) (V.media view.now))
        links.now) }
{
    for link in links {
        push_row(out, frame, view, link)?;
    }
    Ok(())
}

/// Writes a broken link: its place on its page, what it leads to, and why it is broken.
fn push_row<V: Viewed>(
    out: &mut String,
    frame: Frame<'_>,
    view: &V,
    link: &Broken,
) -> Result<(), Memory>
    ensures { OnOk result (string_bytes out.new
        ≡ string_bytes out.old
        ++ broken_row frame.entry.offers (V.view view.now) (V.media view.now) link.now) }
{
    out.push_str("<tr><td>")?;
    push_number(out, link.place)?;
    out.push_str("</td><td>")?;
    push_goal_cell(out, frame, view, link.reason, link.target.get())?;
    out.push_str("</td><td>")?;
    out.push_str(reason_text(link.reason))?;
    out.push_str("</td></tr>\n")?;
    Ok(())
}

fn reason_text(reason: Reason) -> &'static str
    ensures { result.now ≡ reason_text reason }
{
    match reason {
        Reason::Page => "no such page",
        Reason::Anchor => "no such heading",
        Reason::Path => "no path of a page",
        Reason::Image => "no such picture",
    }
}

/// Writes what a link leads to, by the reason that it is broken for.
fn push_goal_cell<V: Viewed>(
    out: &mut String,
    frame: Frame<'_>,
    view: &V,
    reason: Reason,
    target: &str,
) -> Result<(), Memory>
    ensures { OnOk result (string_bytes out.new ≡ string_bytes out.old
        ++ goal_cell frame.entry.offers (V.view view.now) (V.media view.now) reason
        target.now) }
{
    match reason {
        Reason::Page => push_missing_page(out, frame, view, target),
        Reason::Anchor => push_missing_heading(out, frame.heap, view, target),
        Reason::Path => push_dash(out),
        Reason::Image => push_image_cell(out, target),
    }
}

/// Writes what stands where a link writes no path.
fn push_dash(out: &mut String) -> Result<(), Memory>
    ensures { OnOk result (string_bytes out.new ≡ string_bytes out.old ++ dash) }
{
    out.push_str("\u{2013}")?;
    Ok(())
}

/// Writes the path that an image writes, or that it writes none.
fn push_image_cell(out: &mut String, target: &str) -> Result<(), Memory>
    ensures { OnOk result (string_bytes out.new ≡ string_bytes out.old ++ image_cell target.now) }
{
    if target == "-" {
        return push_dash(out);
    }
    push_code(out, target)
}

/// Writes a page that isn't there, and what begins it, where it may be begun.
fn push_missing_page<V: Viewed>(
    out: &mut String,
    frame: Frame<'_>,
    view: &V,
    target: &str,
) -> Result<(), Memory>
    ensures { OnOk result (string_bytes out.new ≡ string_bytes out.old
        ++ missing_page frame.entry.offers (V.view view.now) (V.media view.now) target.now) }
{
    push_code(out, target)?;
    let begins = begins_at(frame, view, target)?;
    push_begin_link(out, begins, target)
}

/// Whether a page may be begun at a path: where tools are offered, unless the path is kept for media.
fn begins_at<V: Viewed>(frame: Frame<'_>, view: &V, path: &str) -> Result<bool, Memory>
    ensures { IfOk result (λ begins. begins ≡ (frame.entry.offers.tools
        && may_begin (V.view view.now) (V.media view.now) path.now)) }
{
    if !frame.offers.tools {
        return Ok(false);
    }
    may_begin(frame.heap, view, path)
}

/// Whether a page may stand under a text: it is a path, and not kept for media.
fn may_begin<V: Viewed>(heap: Heap, view: &V, text: &str) -> Result<bool, Memory>
    ensures { IfOk result
        (λ may. may ≡ may_begin (V.view view.now) (V.media view.now) text.now) }
{
    match Path::new(heap, text) {
        Ok(path) => Ok(!view.is_kept(&path)),
        Err(PathError::BadPath) => Ok(false),
        Err(PathError::Memory) => Err(Memory),
    }
}

/// Writes what begins a page, where one may be begun.
fn push_begin_link(out: &mut String, begins: bool, path: &str) -> Result<(), Memory>
    ensures { OnOk result (string_bytes out.new
        ≡ string_bytes out.old ++ begin_link begins path.now) }
{
    if !begins {
        return Ok(());
    }
    out.push_str(" ")?;
    push_edit_link(out, path, "New page")
}

fn push_code(out: &mut String, target: &str) -> Result<(), Memory>
    ensures { OnOk result (string_bytes out.new ≡ string_bytes out.old
        ++ (codes "<code>" ++ escaped target.now ++ codes "</code>")) }
{
    out.push_str("<code>")?;
    push_escaped(out, target)?;
    out.push_str("</code>")?;
    Ok(())
}

/// Writes a heading that isn't there, and a link to the page that it isn't in.
fn push_missing_heading<V: Viewed>(
    out: &mut String,
    heap: Heap,
    view: &V,
    target: &str,
) -> Result<(), Memory>
    ensures { OnOk result (string_bytes out.new ≡ string_bytes out.old
        ++ missing_heading (V.view view.now) (written_path target.now)
        (written_anchor target.now)) }
{
    let (path, anchor) = parts_of(target);
    let anchor = decoded_text(heap, anchor)?;
    push_goal_start(out, heap, view, path)?;
    push_escaped(out, path)?;
    out.push_str("#")?;
    push_escaped_short(out, heap, anchor.get())?;
    out.push_str("</code></a>")?;
    Ok(())
}

/// The path that a link writes, and the anchor behind its `#`.
fn parts_of(target: &str) -> (&str, &str)
    ensures path { result.0.now ≡ written_path target.now }
    ensures anchor { result.1.now ≡ after_first is_hash target.now }
{
    target.split_once('#').unwrap_or((target, ""))
}

/// What a text stands for, or the text itself where that is no UTF-8.
fn decoded_text(heap: Heap, text: &str) -> Result<Text, Memory>
    ensures { IfOk result (λ decoded. decoded ≡ decoded_text text.now) }
{
    match percent_decode(text.as_bytes()).decode_utf8(heap) {
        Ok(decoded) => Ok(Text::new(decoded.into_owned(heap)?)),
        Err(DecodeError::OutOfMemory) => Err(Memory),
        Err(DecodeError::Utf8(_)) => Text::copy_of(heap, text),
    }
}

fn push_goal_start<V: Viewed>(
    out: &mut String,
    heap: Heap,
    view: &V,
    path: &str,
) -> Result<(), Memory>
    ensures { OnOk result (string_bytes out.new ≡ string_bytes out.old
        ++ (codes "<a href=\"" ++ goal_href (V.view view.now) path.now ++ codes "\"><code>")) }
{
    out.push_str("<a href=\"")?;
    push_goal_href(out, heap, view, path)?;
    out.push_str("\"><code>")?;
    Ok(())
}

/// Writes the address of the page that a path leads to.
fn push_goal_href<V: Viewed>(
    out: &mut String,
    heap: Heap,
    view: &V,
    path: &str,
) -> Result<(), Memory>
    ensures { OnOk result (string_bytes out.new
        ≡ string_bytes out.old ++ goal_href (V.view view.now) path.now) }
{
    let page = match Path::new(heap, path) {
        Ok(page) => page,
        Err(PathError::BadPath) => return push_page_href(out, path),
        Err(PathError::Memory) => return Err(Memory),
    };
    match view.goal(&page)? {
        Some(goal) => push_page_href(out, goal.text()),
        None => push_page_href(out, path),
    }
}
