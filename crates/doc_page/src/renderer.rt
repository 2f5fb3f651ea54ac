//! Renderers, which make pages of texts.

ghost use Rattle.std.specs.Prelude.{◌≡◌, ◌+◌, ℕ, List as Seq, IfOk};
ghost use Rattle.doc_page_parts.specs.declared.rendered.Rendered.{Rendered};

use doc_page_parts::failure::Memory;
use doc_page_parts::heap::Heap;
use doc_page_parts::rendered::Rendered;

/// Makes pages of texts, and counts how often it was asked.
pub trait Renderer {
    /// The page of each text.
    ghost page: { Self → Seq ℕ → Rendered };

    /// How many calls were made. It has no last value and takes no memory when the program runs.
    ghost count: { Self → ℕ };

    /// The page of the text. Each call is counted, a refused one too.
    fn render(&mut self, heap: Heap, text: &str) -> Result<Rendered, Memory>
        ensures page { IfOk result (λ rendered. rendered ≡ page self.old text.now) }
        ensures same { page self.new ≡ page self.old }
        ensures counted { count self.new ≡ count self.old + 1 };
}
