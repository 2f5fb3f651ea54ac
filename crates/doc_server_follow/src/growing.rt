//! A file that another process writes.

ghost use Rattle.std.specs.Prelude.{◌≡◌, ◌≤◌, List, ℕ, Option, length, take, drop, IfOk, IfSome};

use crate::growing_fault::GrowingFault;
use doc_page_parts::bytes::Bytes;
use doc_page_parts::heap::Heap;

/// A file that another process writes, read as it grows. Of a file of the system nothing is known: its bytes are `None`.
pub trait Growing {
    /// Its bytes, where they are known.
    ghost seen: { Self → Option (List ℕ) };

    /// Its bytes from that place on, at most so many: fewer where it ends before. They are those of one moment.
    fn read_at(&mut self, heap: Heap, at: usize, most: usize) -> Result<Bytes, GrowingFault>
        ensures bytes { IfOk result (λ bytes. IfSome (seen self.old)
            (λ file. bytes ≡ take most (drop at file))) }
        ensures most { IfOk result (λ bytes. length bytes ≤ most) }
        ensures seen { seen self.new ≡ seen self.old };
}
