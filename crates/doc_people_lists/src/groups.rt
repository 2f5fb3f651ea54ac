//! Broken links page by page.

ghost use Rattle.std.specs.Prelude.{◌≡◌};
ghost use Rattle.std.specs.List.{prefix_len};
ghost use Rattle.doc_people_lists.specs.Fronts.{is_of};

use doc_links_pages::answers::Broken;

/// How many links at the front are of a page.
pub(crate) fn front_len(links: &[Broken], source: &str) -> usize
    ensures { result ≡ prefix_len (is_of source.now) links.now }
{
    let mut len = 0;
    for link in links {
        if link.source.text() != source {
            break;
        }
        len += 1;
    }
    len
}
