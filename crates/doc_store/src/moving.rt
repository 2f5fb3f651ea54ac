//! Moves of pages from one path to another.

ghost use Rattle.std.specs.Prelude.{◌≡◌, ◌≢◌, ℕ, List as Seq, Some, None, IsTrue, OnOk, OnErr};
ghost use Rattle.std.specs.FinMap as map;
ghost use Rattle.doc_store_pages.specs.MoveSteps.{with_stamped};
ghost use Rattle.doc_store.specs.Store.{aliases_after};

use crate::aliases::Aliases;
use crate::counted_pages::CountedPages;
use doc_page_parts::failure::Memory;
use doc_page_parts::heap::Heap;
use doc_page_parts::path::Path;
use thiserror::Error;

/// Why a move was refused.
#[derive(Clone, Copy, Debug, PartialEq, Eq, Error)]
pub enum MoveError {
    /// No page stands under the old path.
    #[error("no page stands there")]
    NoPage,
    /// A page stands under the new path.
    #[error("a page stands there already")]
    Taken,
    /// More than 10,000 aliases would stand after the move, or no stamp is left: 2^64 - 1 puts and
    /// moves were accepted.
    #[error("the store is full")]
    StoreFull,
    #[error("{}", Memory)]
    Memory,
}

impl From<Memory> for MoveError {
    ghost use Rattle.std.specs.Prelude.{◌≡◌};
    ghost use Rattle.doc_store.specs.declared.moving.MoveError.TheVariants as refusals;

    ghost from_gives = { λ _ e. e ≡ refusals.Memory };

    fn from(_e: Memory) -> MoveError {
        MoveError::Memory
    }
}

/// Takes the page of one path to another, which has none, and has its aliases and the old path lead
/// there. What needs memory comes first.
pub(crate) fn move_page(
    heap: Heap,
    pages: &mut CountedPages,
    aliases: &mut Aliases,
    from: &Path,
    to: &Path,
    stamp: u64,
) -> Result<(), Memory>
    requires stands { IsTrue (map.contains_key pages.old from.now) }
    requires free { map.get pages.old to.now ≡ None }
    requires named { map.get aliases.old from.now ≡ None }
    requires unled { (alias : Seq ℕ) → map.get aliases.old alias ≢ Some to.now }
    ensures pages { OnOk result (pages.new ≡ with_stamped pages.old from.now to.now stamp) }
    ensures aliases { OnOk result (aliases.new ≡ aliases_after aliases.old from.now to.now) }
    ensures same_pages { OnErr result (pages.new ≡ pages.old) }
    ensures same_aliases { OnErr result (aliases.new ≡ aliases.old) }
{
    pages.make_room(heap, to)?;
    if let Err(e) = aliases.follow(heap, from, to) {
        pages.take(to);
        return Err(e);
    }
    pages.rename(from, to, stamp);
    Ok(())
}
