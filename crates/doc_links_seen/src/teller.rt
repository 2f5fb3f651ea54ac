//! What else is told of pages, behind their broken links.

ghost use Rattle.std.specs.Prelude.{◌≡◌, ◌++◌, ℕ, List as Seq, OnOk};
ghost use Rattle.doc_links_pages.specs.declared.answers.Broken.{Broken as BrokenLink};

use doc_links_pages::answers::Broken;
use doc_page_parts::failure::Memory;
use doc_page_parts::heap::Vec;
use doc_page_parts::path::Path;

/// Says what else is told of pages, each held under a path and a stamp, behind their broken links.
pub trait Teller {
    /// What is told of the page that is held under a path and a stamp.
    ghost told: { Self → Seq ℕ → ℕ → Seq BrokenLink };

    /// Adds what is told of the page that is held under a path and a stamp. On an error part of it may stand there.
    fn push_told(&self, all: &mut Vec<Broken>, path: &Path, stamp: u64) -> Result<(), Memory>
        ensures { OnOk result (all.new.items ≡ all.old.items ++ told self.now path.now stamp) };
}
