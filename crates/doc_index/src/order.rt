//! The slots of pages in the order of their paths and stamps.

ghost use Rattle.std.specs.Prelude.{◌≡◌, ◌-◌, ◌<◌, IsTrue, length};
ghost use Rattle.std.specs.List.{HoldsAt};
ghost use Rattle.std.specs.List.Sorted.{IsBinarySearchResult, IsSearchInRange};
ghost use Rattle.std.specs.declared.cmp.Ordering.TheVariants.{Less};
ghost use Rattle.doc_index.specs.Held.{slot_at};
ghost use Rattle.doc_index.specs.IndexSteps.{compared};

use crate::held::Held;
use doc_page_parts::heap::Heap;
use doc_page_parts::path::Path;
use slab::Slab;
use std::cmp::Ordering;

/// Where the slot of the page under a path and a stamp stands in an order, or where it would stand.
/// It halves the order.
pub(crate) fn search<T>(
    slots: &Slab<Held<T>, Heap>,
    order: &[u64],
    path: &Path,
    stamp: u64,
) -> Result<usize, usize>
    ensures within { IsSearchInRange result (length order.now) }
    ensures place { IsBinarySearchResult
        (λ slot. compared (slot_at slots.now.slots slot) (path.now, stamp)) order.now result }
{
    if comes_last(slots, order, path, stamp) {
        return Err(order.len());
    }
    order.binary_search_by(|slot| compare(slots, *slot, path, stamp))
}

/// Whether a path and a stamp come behind those of the last page: so they do where pages are added
/// in their order.
fn comes_last<T>(slots: &Slab<Held<T>, Heap>, order: &[u64], path: &Path, stamp: u64) -> bool
    ensures some { IsTrue result → 0 < length order.now }
    ensures last { IsTrue result → HoldsAt
        (λ slot. compared (slot_at slots.now.slots slot) (path.now, stamp) ≡ Less)
        order.now (length order.now - 1) }
{
    let Some(last) = order.last() else {
        return false;
    };
    compare(slots, *last, path, stamp).is_lt()
}

/// How the path and the stamp of the page in a slot compare with others.
fn compare<T>(slots: &Slab<Held<T>, Heap>, slot: u64, path: &Path, stamp: u64) -> Ordering
    ensures { result ≡ compared (slot_at slots.now.slots slot) (path.now, stamp) }
{
    let Some(page) = slots.get(slot as usize) else {
        return Ordering::Less;
    };
    page.path.cmp(path).then(page.stamp.cmp(&stamp))
}
