//! What stands around the entries of a list that is shown part by part.

ghost use Rattle.std.specs.Prelude.{◌≡◌, ◌++◌, codes, string_bytes, OnOk, Some, option_copied};
ghost use Rattle.doc_people.specs.Lists.{is_whole, more_link, note_from, pager, start_link};

use doc_page_encoding::encoding::push_encoded;
use doc_page_parts::failure::Memory;
use doc_page_parts::heap::String;

/// Writes what is said of a list that has nothing from a text on, by what is said of one that has nothing at all.
pub(crate) fn push_note_from(out: &mut String, from: &str, note: &str) -> Result<(), Memory>
    ensures { OnOk result (string_bytes out.new
        ≡ string_bytes out.old ++ note_from from.now note.now) }
{
    if !from.is_empty() {
        out.push_str("<p>Nothing follows.</p>\n")?;
        return Ok(());
    }
    out.push_str("<p>")?;
    out.push_str(note)?;
    out.push_str("</p>\n")?;
    Ok(())
}

/// Writes what stands before the entries of a list.
pub(crate) fn push_list_start(out: &mut String) -> Result<(), Memory>
    ensures { OnOk result (string_bytes out.new
        ≡ string_bytes out.old ++ codes "<ul class=\"list\">\n") }
{
    out.push_str("<ul class=\"list\">\n")?;
    Ok(())
}

/// Writes what stands behind them.
pub(crate) fn push_list_end(out: &mut String) -> Result<(), Memory>
    ensures { OnOk result (string_bytes out.new ≡ string_bytes out.old ++ codes "</ul>\n") }
{
    out.push_str("</ul>\n")?;
    Ok(())
}

/// Writes the links to the other parts of the list at an address: the part from `from` on is shown, and `next` is the text behind it.
pub(crate) fn push_pager(
    out: &mut String,
    address: &str,
    from: &str,
    next: Option<&str>,
) -> Result<(), Memory>
    ensures { OnOk result (string_bytes out.new
        ≡ string_bytes out.old ++ pager address.now from.now (option_copied next.entry)) }
{
    if is_whole(from, next) {
        return Ok(());
    }
    out.push_str("<nav class=\"pager\" aria-label=\"Parts of this list\">\n")?;
    push_start_link(out, address, from)?;
    push_more_link(out, address, next)?;
    out.push_str("</nav>\n")?;
    Ok(())
}

/// Whether nothing stands before the part of a list that begins at `from`, and nothing behind it.
fn is_whole(from: &str, next: Option<&str>) -> bool
    ensures { result ≡ is_whole from.now (option_copied next.entry) }
{
    from.is_empty() && next.is_none()
}

fn push_start_link(out: &mut String, address: &str, from: &str) -> Result<(), Memory>
    ensures { OnOk result (string_bytes out.new
        ≡ string_bytes out.old ++ start_link address.now from.now) }
{
    if from.is_empty() {
        return Ok(());
    }
    out.push_str("<a href=\"")?;
    out.push_str(address)?;
    out.push_str("\">From the start</a>\n")?;
    Ok(())
}

fn push_more_link(out: &mut String, address: &str, next: Option<&str>) -> Result<(), Memory>
    ensures { OnOk result (string_bytes out.new
        ≡ string_bytes out.old ++ more_link address.now (option_copied next.entry)) }
{
    match next {
        None => Ok(()),
        Some(next) => push_next_link(out, address, next),
    }
}

fn push_next_link(out: &mut String, address: &str, next: &str) -> Result<(), Memory>
    ensures { OnOk result (string_bytes out.new
        ≡ string_bytes out.old ++ more_link address.now (Some next.now)) }
{
    out.push_str("<a href=\"")?;
    out.push_str(address)?;
    out.push_str("?from=")?;
    push_encoded(out, next)?;
    out.push_str("\" rel=\"next\">More</a>\n")?;
    Ok(())
}
