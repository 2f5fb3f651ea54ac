//! What stands beside and below the main part.

ghost use Rattle.std.specs.Prelude.{◌≡◌, ◌++◌, option_copied, string_bytes, OnOk};
ghost use Rattle.doc_people.specs.Shell.{aside_part, foot, foot_part, main_part, place_line};

use crate::frame::Frame;
use crate::tools::push_tools;
use doc_page_parts::escaping::push_escaped;
use doc_page_parts::failure::Memory;
use doc_page_parts::heap::String;

/// Writes the main part of a page.
pub(crate) fn push_main(out: &mut String, main: &str) -> Result<(), Memory>
    ensures { OnOk result (string_bytes out.new ≡ string_bytes out.old ++ main_part main.now) }
{
    out.push_str("<main id=\".main\">\n")?;
    out.push_str(main)?;
    out.push_str("</main>\n")?;
    Ok(())
}

/// Writes what stands beside the main part, where there is something.
pub(crate) fn push_aside(out: &mut String, aside: &str) -> Result<(), Memory>
    ensures { OnOk result (string_bytes out.new ≡ string_bytes out.old ++ aside_part aside.now) }
{
    if aside.is_empty() {
        return Ok(());
    }
    out.push_str("<aside aria-label=\"About this page\">\n")?;
    out.push_str(aside)?;
    out.push_str("</aside>\n")?;
    Ok(())
}

/// Writes the place and the tools, below the page.
pub(crate) fn push_foot(out: &mut String, frame: Frame<'_>, at: Option<&str>) -> Result<(), Memory>
    ensures { OnOk result (string_bytes out.new
        ≡ string_bytes out.old ++ foot frame.entry.offers (option_copied at.entry)) }
{
    let mut lines = String::new(frame.heap);
    push_place_line(&mut lines, at)?;
    push_tools(&mut lines, frame.offers.tools, at)?;
    push_foot_part(out, lines.as_str())
}

/// Writes lines below the page, where there are some.
fn push_foot_part(out: &mut String, lines: &str) -> Result<(), Memory>
    ensures { OnOk result (string_bytes out.new ≡ string_bytes out.old ++ foot_part lines.now) }
{
    if lines.is_empty() {
        return Ok(());
    }
    out.push_str("<footer>\n")?;
    out.push_str(lines)?;
    out.push_str("</footer>\n")?;
    Ok(())
}

/// Writes the place; nothing at none and at the empty folder.
fn push_place_line(out: &mut String, at: Option<&str>) -> Result<(), Memory>
    ensures { OnOk result (string_bytes out.new
        ≡ string_bytes out.old ++ place_line (option_copied at.entry)) }
{
    match at {
        Some(place) => push_place(out, place),
        None => Ok(()),
    }
}

/// Writes a place; nothing at the empty folder.
fn push_place(out: &mut String, place: &str) -> Result<(), Memory>
    ensures { OnOk result (string_bytes out.new
        ≡ string_bytes out.old ++ place_line (Some place.now)) }
{
    if place.is_empty() {
        return Ok(());
    }
    out.push_str("<p><code>")?;
    push_escaped(out, place)?;
    out.push_str("</code></p>\n")?;
    Ok(())
}
