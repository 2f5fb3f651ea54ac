//! A page between its tags.

ghost use Rattle.std.specs.Prelude.{◌≡◌, ◌++◌, codes, string_bytes, OnOk};
ghost use Rattle.doc_people.specs.Inert.{inert};
ghost use Rattle.doc_people.specs.Pages.{heading_line};

use crate::headings::push_heading_line;
use crate::inert::push_inert;
use doc_page_parts::failure::Memory;
use doc_page_parts::heap::String;
use doc_page_parts::rendered::Heading;

/// Writes a page between its tags, from its headings and its HTML: inert, and behind the heading of level 1 that it hasn't itself.
pub fn push_article(
    out: &mut String,
    path: &str,
    headings: &[Heading],
    html: &str,
) -> Result<(), Memory>
    ensures { OnOk result (string_bytes out.new ≡ string_bytes out.old ++ (codes "<article>\n"
        ++ heading_line path.now headings.now ++ inert html.now ++ codes "</article>\n")) }
{
    out.push_str("<article>\n")?;
    push_heading_line(out, path, headings)?;
    push_inert(out, html)?;
    out.push_str("</article>\n")?;
    Ok(())
}
