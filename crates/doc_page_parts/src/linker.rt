//! How the links of a page are shown to a reader.

ghost use Rattle.std.specs.Prelude.{◌≡◌, ℕ, List as Seq, IfOk};
ghost use Rattle.doc_page_parts.specs.declared.linker.Shown.{Shown};

use crate::failure::Memory;
use crate::heap::Heap;
use crate::text::Text;

/// How a link is shown.
#[derive(Debug, Drop)]
pub enum Shown {
    /// A link with this `href`, which is written as it stands, so it is escaped already.
    Href(Text),
    /// A link that leads nowhere: `<a class="missing">`.
    Missing,
}

/// Says how the links of one page are shown to one reader.
pub trait Linker {
    /// How the link to each destination is shown.
    ghost shown: { Self → Seq ℕ → Shown };

    /// How the link to the destination is shown.
    fn show(&self, heap: Heap, dest: &str) -> Result<Shown, Memory>
        ensures { IfOk result (λ how. how ≡ shown self.now dest.now) };
}
