//! The document of a page as one reader sees it.

ghost use Rattle.std.specs.Prelude.{◌≡◌, ◌++◌, string_bytes, IfOk};
ghost use Rattle.doc_shelf_pages.specs.Templates.{body_of, title_of};

use doc_page_parts::escaping::push_escaped;
use doc_page_parts::failure::Memory;
use doc_page_parts::heap::{Heap, String};
use doc_page_parts::linker::Linker;
use doc_page_parts::path::Path;
use doc_page_parts::rendered::Heading;
use doc_page_parts::text::Text;
use doc_shelf_packed::PackedPage;

/// The bytes round the title.
const FRAME_LEN: usize = 32;

/// The document of a page: a head with its title, and the page with its links as they are shown.
pub fn body<L: Linker>(
    heap: Heap,
    path: &Path,
    page: &PackedPage,
    linker: &L,
) -> Result<Text, Memory>
    ensures { IfOk result (λ body. body ≡ body_of path.now (L.shown linker.now) page.now) }
{
    let title = title(path, page.headings());
    let mut out = String::with_capacity(heap, room(title, page))?;
    out.push_str("<!DOCTYPE html>\n<title>")?;
    push_escaped(&mut out, title)?;
    out.push_str("</title>\n")?;
    page.push_filled(heap, &mut out, linker)?;
    Ok(Text::new(out))
}

/// The first heading's text that isn't empty, or else the path.
fn title<'a>(path: &'a Path, headings: &'a [Heading]) -> &'a str
    ensures { result.now ≡ title_of path.now headings.now }
{
    for heading in headings {
        if !heading.text.get().is_empty() {
            return heading.text.get();
        }
    }
    path.text()
}

/// About how many bytes the document takes; escapes in the title and long links take more.
fn room(title: &str, page: &PackedPage) -> usize {
    FRAME_LEN
        .saturating_add(title.len())
        .saturating_add(page.room())
}
