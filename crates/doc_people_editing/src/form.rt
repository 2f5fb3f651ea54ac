//! The form that a text is edited in.

ghost use Rattle.std.specs.Prelude.{◌≡◌, ◌++◌, codes, string_bytes, OnOk};
ghost use Rattle.doc_page_encoding.specs.Encoding.{encoded_path};
ghost use Rattle.doc_page_parts.specs.Escaping.{escaped};
ghost use Rattle.doc_people.specs.Folders.{page_href};
ghost use Rattle.doc_people.specs.Lines.{link};
ghost use Rattle.doc_people_editing.specs.EditPage.{edit_buttons, edit_form, edit_heading, groups_field, source_href, text_field};

use doc_page_encoding::encoding::push_encoded_path;
use doc_page_parts::escaping::push_escaped;
use doc_page_parts::failure::Memory;
use doc_page_parts::heap::String;
use doc_people_lines::addresses::push_page_href;
use doc_people_lines::lines::{push_link_end, push_link_start};

/// Writes the path, and what is told where no script runs.
pub(crate) fn push_edit_heading(out: &mut String, path: &str) -> Result<(), Memory>
    ensures { OnOk result (string_bytes out.new ≡ string_bytes out.old ++ edit_heading path.now) }
{
    out.push_str("<h1>")?;
    push_escaped(out, path)?;
    out.push_str("</h1>\n<noscript><p>Saving takes the script of this page. Without it, ")?;
    push_source_link(out, path)?;
    out.push_str(" is read and written by programs.</p></noscript>\n")?;
    Ok(())
}

fn push_source_link(out: &mut String, path: &str) -> Result<(), Memory>
    ensures { OnOk result (string_bytes out.new ≡ string_bytes out.old
        ++ link (source_href path.now) (codes "the source")) }
{
    push_link_start(out)?;
    push_source_href(out, path)?;
    push_link_end(out, false, "the source")?;
    Ok(())
}

/// Writes the address that programs read the text of a page at.
fn push_source_href(out: &mut String, path: &str) -> Result<(), Memory>
    ensures { OnOk result (string_bytes out.new ≡ string_bytes out.old ++ source_href path.now) }
{
    out.push_str("/source/")?;
    push_encoded_path(out, path)
}

/// Writes the form, with the page's address and the tag of the text that is edited.
pub(crate) fn push_edit_form(
    out: &mut String,
    path: &str,
    text: &str,
    groups: &str,
    tag: &str,
) -> Result<(), Memory>
    ensures { OnOk result (string_bytes out.new ≡ string_bytes out.old
        ++ edit_form path.now text.now groups.now tag.now) }
{
    push_form_start(out, path, tag)?;
    push_text_field(out, text)?;
    push_groups_field(out, groups)?;
    push_edit_buttons(out, path)?;
    out.push_str("</form>\n")?;
    Ok(())
}

fn push_form_start(out: &mut String, path: &str, tag: &str) -> Result<(), Memory>
    ensures { OnOk result (string_bytes out.new ≡ string_bytes out.old
        ++ (codes "<form id=\"edit\" autocomplete=\"off\" data-path=\"" ++ encoded_path path.now
        ++ codes "\" data-tag=\"" ++ escaped tag.now ++ codes "\">\n")) }
{
    out.push_str("<form id=\"edit\" autocomplete=\"off\" data-path=\"")?;
    push_encoded_path(out, path)?;
    out.push_str("\" data-tag=\"")?;
    push_escaped(out, tag)?;
    out.push_str("\">\n")?;
    Ok(())
}

/// Writes the text, behind a line end that browsers drop.
fn push_text_field(out: &mut String, text: &str) -> Result<(), Memory>
    ensures { OnOk result (string_bytes out.new ≡ string_bytes out.old ++ text_field text.now) }
{
    out.push_str(
        "<p><label for=\"text\">Text</label></p>\n<textarea id=\"text\" rows=\"24\" cols=\"80\">\n",
    )?;
    push_escaped(out, text)?;
    out.push_str("</textarea>\n")?;
    Ok(())
}

/// Writes who may see the page.
fn push_groups_field(out: &mut String, groups: &str) -> Result<(), Memory>
    ensures { OnOk result (string_bytes out.new ≡ string_bytes out.old ++ groups_field groups.now) }
{
    out.push_str("<p><label>Groups <input id=\"groups\" value=\"")?;
    push_escaped(out, groups)?;
    out.push_str(
        "\" size=\"40\"></label> names with commas between; with none, owners alone see the page</p>\n",
    )?;
    Ok(())
}

/// Writes what may be done with the text, the way to the page, and where the script tells what came of it.
fn push_edit_buttons(out: &mut String, path: &str) -> Result<(), Memory>
    ensures { OnOk result (string_bytes out.new ≡ string_bytes out.old ++ edit_buttons path.now) }
{
    out.push_str(
        "<p><button disabled>Save</button> <button id=\"show\" type=\"button\" disabled>Preview</button> ",
    )?;
    push_page_link(out, path)?;
    out.push_str("</p>\n<p id=\"said\" role=\"status\"></p>\n")?;
    Ok(())
}

fn push_page_link(out: &mut String, path: &str) -> Result<(), Memory>
    ensures { OnOk result (string_bytes out.new ≡ string_bytes out.old
        ++ link (page_href path.now) (codes "The page")) }
{
    push_link_start(out)?;
    push_page_href(out, path)?;
    push_link_end(out, false, "The page")?;
    Ok(())
}
