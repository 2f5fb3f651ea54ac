//! The paths that the links of a page write, by which the page is asked for.

ghost use Rattle.std.specs.Prelude.{◌≡◌, ◌+◌, ℕ, List as Seq, IfOk, OnOk, if◌then◌else◌};
ghost use Rattle.std.specs.FinMap as map;
ghost use Rattle.doc_index_tables.specs.Maps.{text_map};
ghost use Rattle.doc_links_pages.specs.KnownSteps.{HasKeys, HasSome, count_at};
ghost use Rattle.doc_links_pages.specs.Names.{writes};

use doc_page_parts::failure::Memory;
use doc_page_parts::heap::{BTreeMap, Heap, String};
use doc_resolve::LinkKind;

/// The paths that these links write, each with the number of the links that write it.
pub fn keys_of(heap: Heap, links: &[LinkKind]) -> Result<BTreeMap<String, u64>, Memory>
    ensures { IfOk result (λ keys. HasKeys links.now (text_map keys)) }
{
    let mut keys = BTreeMap::new(heap);
    for link in links {
        count_link(heap, &mut keys, link)?;
    }
    Ok(keys)
}

/// Counts the path that a link writes, if it writes one.
fn count_link(heap: Heap, keys: &mut BTreeMap<String, u64>, link: &LinkKind) -> Result<(), Memory>
    ensures counts { OnOk result ((path : Seq ℕ) → count_at (text_map keys.new) path
        ≡ count_at (text_map keys.old) path + (if writes path link.now then 1 else 0)) }
    ensures some { OnOk result
        (HasSome (text_map keys.old) → HasSome (text_map keys.new)) }
{
    let LinkKind::Page { path, anchor: _ } = link else {
        return Ok(());
    };
    add_one(heap, keys, path.text())
}

/// Counts a path. A number past the last one is answered as want of memory.
fn add_one(heap: Heap, keys: &mut BTreeMap<String, u64>, path: &str) -> Result<(), Memory>
    ensures { OnOk result (text_map keys.new
        ≡ map.insert (text_map keys.old) path.now (count_at (text_map keys.old) path.now + 1)) }
{
    let Some(count) = count_of(keys, path).checked_add(1) else {
        return Err(Memory);
    };
    keys.insert(String::from_str(heap, path)?, count)?;
    Ok(())
}

fn count_of(keys: &BTreeMap<String, u64>, path: &str) -> u64
    ensures { result ≡ count_at (text_map keys.now) path.now }
{
    let Some(count) = keys.get(path) else {
        return 0;
    };
    *count
}
