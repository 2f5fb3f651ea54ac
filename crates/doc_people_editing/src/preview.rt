//! What a text would look like as the page of a path.

ghost use Rattle.std.specs.Prelude.{◌≡◌, ◌++◌, string_bytes, IfOk, OnOk};
ghost use Rattle.doc_people.specs.Folders.{first_text, short, title_by};
ghost use Rattle.doc_people_editing.specs.Preview.{preview_body, preview_main};

use doc_page_parts::failure::Memory;
use doc_page_parts::heap::{Heap, String};
use doc_page_parts::rendered::Heading;
use doc_page_parts::text::Text;
use doc_people::settings::Browse;
use doc_people_lines::titles::{first_text, short};
use doc_people_pages::push_article;
use doc_people_shell::shell::bare;

/// What the main part has beside its HTML: a guess, on which nothing rests.
const ROOM: usize = 512;

/// The page for people that shows what a text would look like as the page of a path, by the headings and the HTML that a renderer makes of
/// it, with its links as the reader sees them.
pub fn preview_body(
    heap: Heap,
    browse: &Browse,
    path: &str,
    headings: &[Heading],
    html: &str,
) -> Result<Text, Memory>
    ensures { IfOk result (λ body. body ≡ preview_body browse.now path.now headings.now html.now) }
{
    let title = preview_title(heap, path, headings)?;
    let mut main = String::with_capacity(heap, html.len().saturating_add(ROOM))?;
    push_preview_main(&mut main, path, headings, html)?;
    let body = bare(heap, browse, title.get(), main.as_str())?;
    Ok(body)
}

/// The title that the page would have, shortened.
fn preview_title(heap: Heap, path: &str, headings: &[Heading]) -> Result<Text, Memory>
    ensures { IfOk result (λ shown. shown ≡ short (title_by path.now (first_text headings.now))) }
{
    match first_text(headings) {
        Some(text) => short(heap, text),
        None => short(heap, path),
    }
}

/// Writes the page between its tags: inert, and behind the heading of level 1 that it hasn't itself.
#[tactic(auto, unfolding(crate::specs::Preview::preview_main))]
pub fn push_preview_main(
    out: &mut String,
    path: &str,
    headings: &[Heading],
    html: &str,
) -> Result<(), Memory>
    ensures { OnOk result (string_bytes out.new ≡ string_bytes out.old
        ++ preview_main path.now headings.now html.now) }
{
    push_article(out, path, headings, html)
}
