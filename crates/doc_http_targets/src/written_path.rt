//! Paths of pages, as a request writes them.

ghost use Rattle.std.specs.Prelude.{◌≡◌, IfOk};
ghost use Rattle.doc_http_targets.specs.WrittenPaths.{path_written};

use doc_page_parts::failure::Memory;
use doc_page_parts::heap::Heap;
use doc_page_parts::path::Path;

/// The path that the text writes, as the path of a URI does behind its first `/`: `doc_resolve::written_path` of it.
#[tactic(auto, unfolding(crate::specs::WrittenPaths::path_written))]
pub fn written_path(heap: Heap, written: &str) -> Result<Option<Path>, Memory>
    ensures { IfOk result (λ path. path ≡ path_written written.now) }
{
    doc_resolve::written_path(heap, written)
}
