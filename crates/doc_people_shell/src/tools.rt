//! Links that edit pages and begin new ones.

ghost use Rattle.std.specs.Prelude.{◌≡◌, ◌++◌, option_copied, string_bytes, true, OnOk, Some};
ghost use Rattle.doc_people.specs.Shell.{edit_link, tools};

use doc_page_parts::failure::Memory;
use doc_page_parts::heap::String;
use doc_people_lines::links::push_edit_link;
use doc_people_lines::texts::{folder_of, is_folder};

/// Writes the tools, where they are offered; nothing at none.
pub(crate) fn push_tools(out: &mut String, offered: bool, at: Option<&str>) -> Result<(), Memory>
    ensures { OnOk result (string_bytes out.new
        ≡ string_bytes out.old ++ tools offered (option_copied at.entry)) }
{
    if !offered {
        return Ok(());
    }
    match at {
        Some(place) => push_tools_at(out, place),
        None => Ok(()),
    }
}

/// Writes the links that edit the page at a place, and begin one beside it.
fn push_tools_at(out: &mut String, place: &str) -> Result<(), Memory>
    ensures { OnOk result (string_bytes out.new
        ≡ string_bytes out.old ++ tools true (Some place.now)) }
{
    out.push_str("<p class=\"tools\">\n")?;
    push_page_tool(out, place)?;
    push_edit_link(out, folder_of(place), "New page")?;
    out.push_str("\n</p>\n")?;
    Ok(())
}

/// Writes the link that edits a page; a folder has none.
fn push_page_tool(out: &mut String, place: &str) -> Result<(), Memory>
    ensures { OnOk result (string_bytes out.new ≡ string_bytes out.old ++ edit_link place.now) }
{
    if is_folder(place) {
        return Ok(());
    }
    push_edit_link(out, place, "Edit")?;
    out.push_str("\n")?;
    Ok(())
}
