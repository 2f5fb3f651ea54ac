//! The beginning of each page.

ghost use Rattle.std.specs.Prelude.{◌≡◌, ◌++◌, string_bytes, OnOk};
ghost use Rattle.doc_people.specs.Shell.{head, head_links, head_metas};

use doc_page_parts::escaping::push_escaped;
use doc_page_parts::failure::Memory;
use doc_page_parts::heap::String;
use doc_people::settings::Browse;

/// Writes the beginning of a page, by its title.
#[tactic(auto, unfolding(doc_people::specs::Shell::head))]
pub(crate) fn push_head(out: &mut String, browse: &Browse, title: &str) -> Result<(), Memory>
    ensures { OnOk result (string_bytes out.new
        ≡ string_bytes out.old ++ head browse.now title.now) }
{
    out.push_str("<!DOCTYPE html>\n<html lang=\"")?;
    out.push_str(browse.language.get())?;
    push_metas(out)?;
    push_escaped(out, title)?;
    out.push_str(" · ")?;
    push_escaped(out, browse.title.get())?;
    push_links(out)?;
    Ok(())
}

/// Writes what stands between the language and the titles.
fn push_metas(out: &mut String) -> Result<(), Memory>
    ensures { OnOk result (string_bytes out.new ≡ string_bytes out.old ++ head_metas) }
{
    out.push_str("\">\n<head>\n<meta charset=\"utf-8\">\n")?;
    out.push_str("<meta name=\"viewport\" content=\"width=device-width, initial-scale=1\">\n")?;
    out.push_str("<meta name=\"color-scheme\" content=\"light dark\">\n<title>")?;
    Ok(())
}

/// Writes what stands behind the titles.
fn push_links(out: &mut String) -> Result<(), Memory>
    ensures { OnOk result (string_bytes out.new ≡ string_bytes out.old ++ head_links) }
{
    out.push_str(
        "</title>\n<link rel=\"icon\" href=\"data:,\">\n<link rel=\"stylesheet\" href=\"",
    )?;
    out.push_str("/style.css?5")?;
    out.push_str("\">\n</head>\n<body>\n")?;
    Ok(())
}
