//! Lines of HTML.

ghost use Rattle.std.specs.Prelude.{◌≡◌, ◌++◌, codes, string_bytes, OnOk};
ghost use Rattle.doc_page_parts.specs.Escaping.{escaped};
ghost use Rattle.doc_people.specs.Lines.{current_if, link, link_or_current};
ghost use Rattle.doc_people.specs.Lists.{path_span};

use doc_page_parts::escaping::push_escaped;
use doc_page_parts::failure::Memory;
use doc_page_parts::heap::String;

/// Writes a link: its address, which needs no escaping, and its text, which is escaped.
pub fn push_link(out: &mut String, href: &str, text: &str) -> Result<(), Memory>
    ensures { OnOk result (string_bytes out.new ≡ string_bytes out.old ++ link href.now text.now) }
{
    push_link_or_current(out, href, false, text)
}

/// The same, by whether it leads to the page that is shown.
pub fn push_link_or_current(
    out: &mut String,
    href: &str,
    current: bool,
    text: &str,
) -> Result<(), Memory>
    ensures { OnOk result (string_bytes out.new
        ≡ string_bytes out.old ++ link_or_current href.now current text.now) }
{
    push_link_start(out)?;
    out.push_str(href)?;
    push_link_middle(out, current)?;
    push_escaped(out, text)?;
    out.push_str("</a>")?;
    Ok(())
}

/// Writes what a link has before its address.
pub fn push_link_start(out: &mut String) -> Result<(), Memory>
    ensures { OnOk result (string_bytes out.new ≡ string_bytes out.old ++ codes "<a href=\"") }
{
    out.push_str("<a href=\"")?;
    Ok(())
}

/// Writes what a link has behind its address, up to its text.
fn push_link_middle(out: &mut String, current: bool) -> Result<(), Memory>
    ensures { OnOk result (string_bytes out.new
        ≡ string_bytes out.old ++ codes "\"" ++ current_if current ++ codes ">") }
{
    out.push_str("\"")?;
    out.push_str(current_if(current))?;
    out.push_str(">")?;
    Ok(())
}

/// Writes what a link has behind its address, with its text, which is escaped.
pub fn push_link_end(out: &mut String, current: bool, text: &str) -> Result<(), Memory>
    ensures { OnOk result (string_bytes out.new ≡ string_bytes out.old
        ++ codes "\"" ++ current_if current ++ codes ">" ++ escaped text.now ++ codes "</a>") }
{
    push_link_middle(out, current)?;
    push_escaped(out, text)?;
    out.push_str("</a>")?;
    Ok(())
}

/// The attribute of a link to the page that is shown.
fn current_if(current: bool) -> &'static str
    ensures { result.now ≡ current_if current }
{
    if current {
        " aria-current=\"page\""
    } else {
        ""
    }
}

/// Writes a path or a folder behind the link to it.
pub fn push_path_span(out: &mut String, path: &str) -> Result<(), Memory>
    ensures { OnOk result (string_bytes out.new ≡ string_bytes out.old ++ path_span path.now) }
{
    out.push_str(" <span class=\"path\">")?;
    push_escaped(out, path)?;
    out.push_str("</span>")?;
    Ok(())
}
