//! What the index of links answers.

ghost use Rattle.std.specs.Prelude.{◌≡◌};

use doc_page_parts::list::List;
use doc_page_parts::path::Path;
use doc_page_parts::rendered::Heading;
use doc_page_parts::text::Text;

/// Why a link is broken, or an image shows nothing.
#[derive(Clone, Copy)]
pub enum Reason {
    /// Its path leads to no page that is seen.
    Page,
    /// The page that it leads to has no heading with its anchor.
    Anchor,
    /// It writes no path of a page.
    Path,
    /// It is an image, and nothing that its reader sees stands where its source leads.
    Image,
}

/// A broken link, or an image that shows nothing.
#[derive(Drop)]
pub struct Broken {
    /// The page that has the link.
    pub source: Path,
    /// The number of the link among all links of its page, or of the image among its images, from 1.
    pub place: u64,
    pub reason: Reason,
    /// What the link leads to, as it is written and not by its goal: the path; with `Anchor` the path, `#` and the encoded anchor;
    /// with `Path` the text `-`. Of an image it is the path of its source, or `-` where that is none.
    pub target: Text,
}

/// A page and its headings, in their order.
#[derive(Drop)]
pub struct Entry {
    pub path: Path,
    pub headings: List<Heading>,
}

/// Whatever tells of a page what an entry does: a list is written of it without a copy.
pub trait Listed {
    ghost use Rattle.doc_links_pages.specs.declared.answers.Entry.{Entry as PageEntry};

    ghost entry: { Self → PageEntry };

    fn path(&self) -> &Path
        ensures { result.now ≡ (entry self.now).path };

    fn headings(&self) -> &[Heading]
        ensures { result.now ≡ (entry self.now).headings };
}

impl Listed for Entry {
    ghost entry = { λ page. page };

    fn path(&self) -> &Path {
        &self.path
    }

    fn headings(&self) -> &[Heading] {
        self.headings.get()
    }
}
