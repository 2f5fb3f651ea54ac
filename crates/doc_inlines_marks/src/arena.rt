//! Where what marks point to stands.
ghost use Rattle.std.specs.Prelude.{◌≡◌, IfOk};

use crate::mark_ref::ReferenceRef;
use crate::target_ref::TargetRef;
use bumpalo::Bump;
use doc_page_parts::failure::Memory;
use doc_page_parts::heap::Heap;

/// Where the targets of links and the character references of marks stand, until all go at once. It takes memory in blocks that grow.
pub struct Arena {
    values: Bump<Heap>,
}

/// Written out, so that it is proved here once.
impl Drop for Arena {
    fn drop(self) {
        let Arena { values: _ } = self;
    }
}

impl Arena {
    /// It holds nothing, and takes no memory.
    pub fn new(heap: Heap) -> Arena {
        Arena {
            values: Bump::new(heap),
        }
    }

    /// The target, where it stays.
    pub fn target<'t, 'r>(
        &'r self,
        target: TargetRef<'t, 'r>,
    ) -> Result<&'r TargetRef<'t, 'r>, Memory>
        ensures { IfOk result (λ kept. kept.now ≡ target.entry) }
    {
        match self.values.try_alloc(target) {
            Ok(kept) => Ok(kept),
            Err(_) => Err(Memory),
        }
    }

    /// The reference, where it stays.
    pub fn reference<'t, 'r>(
        &'r self,
        reference: ReferenceRef<'t>,
    ) -> Result<&'r ReferenceRef<'t>, Memory>
        ensures { IfOk result (λ kept. kept.now ≡ reference.entry) }
    {
        match self.values.try_alloc(reference) {
            Ok(kept) => Ok(kept),
            Err(_) => Err(Memory),
        }
    }
}
