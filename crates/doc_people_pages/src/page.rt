//! The page for people that shows a page of the site.

ghost use Rattle.std.specs.Prelude.{◌≡◌, ◌++◌, string_bytes, option_map, IfOk, OnOk, Some};
ghost use Rattle.doc_people.specs.Pages.{linked_from, listed_headings, on_this_page, page_body};
ghost use Rattle.doc_people.specs.Sources.{sources_of};
ghost use Rattle.doc_people.specs.Views.{rendered_at};
ghost use Rattle.doc_store_readers.specs.Pages.{Page};
ghost use Rattle.doc_store_readers.specs.Sites.{page_at};

use crate::article::push_article;
use crate::headings::push_on_this_page;
use crate::linked_from::push_linked_from;
use doc_page_parts::failure::Memory;
use doc_page_parts::heap::{Heap, String};
use doc_page_parts::path::Path;
use doc_page_parts::rendered::Heading;
use doc_page_parts::text::Text;
use doc_people::viewed::Viewed;
use doc_people_lines::titles::{short, title};
use doc_people_shell::frame::Frame;
use doc_people_shell::shell::shell;

/// What a page has beside its HTML: a guess, on which nothing rests.
const ROOM: usize = 512;

/// The page for people that shows the page at a path, where one is seen there.
pub fn page_body<V: Viewed>(frame: Frame<'_>, view: &V, path: &Path) -> Result<Option<Text>, Memory>
    ensures { IfOk result (λ text. text ≡ option_map
        (page_body (V.render view.now) frame.entry.browse.now frame.entry.offers
        (V.view view.now) (V.media view.now) path.now)
        (rendered_at (V.render view.now) (V.view view.now) path.now)) }
{
    let Some(html) = view.html(path)? else {
        return Ok(None);
    };
    let Some(headings) = view.headings(path.text())? else {
        return Ok(None);
    };
    let short_title = short(frame.heap, title(path.text(), headings))?;
    let mut main = String::with_capacity(frame.heap, html.get().len().saturating_add(ROOM))?;
    push_article(&mut main, path.text(), headings, html.get())?;
    let mut aside = String::new(frame.heap);
    push_beside(&mut aside, frame.heap, view, path, headings)?;
    let body = shell(
        frame,
        view,
        short_title.get(),
        Some(path.text()),
        main.as_str(),
        aside.as_str(),
    )?;
    Ok(Some(body))
}

/// Writes what stands beside a page that is seen, from its headings.
fn push_beside<V: Viewed>(
    out: &mut String,
    heap: Heap,
    view: &V,
    path: &Path,
    headings: &[Heading],
) -> Result<(), Memory>
    ensures { (page : Page) → page_at (V.view view.now).pages path.now ≡ Some page
        → OnOk result (string_bytes out.new ≡ string_bytes out.old
        ++ (on_this_page (listed_headings headings.now)
        ++ linked_from (V.render view.now) (V.view view.now) path.now
        (sources_of (V.render view.now) (V.view view.now) path.now))) }
{
    push_on_this_page(out, heap, headings)?;
    push_linked_from(out, heap, view, path)
}
