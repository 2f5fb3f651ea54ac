//! Words that are sorted, and counted by runs of the same.

ghost use Rattle.std.specs.Prelude.{◌≡◌, ◌∷◌, ◌++◌, ◌≤◌, bytes_eq, length, map as mapped, string_bytes, IfOk};
ghost use Rattle.std.specs.Cmp.Lexicographic.{slice_cmp};
ghost use Rattle.std.specs.FinMap as map;
ghost use Rattle.std.specs.List.{prefix_len};
ghost use Rattle.std.specs.List.Sorted.{IsPermutation, IsSorted};
ghost use Rattle.std.specs.Ordering.{nat_cmp};
ghost use Rattle.doc_index_tables.specs.Maps.{shown};
ghost use Rattle.doc_words_search.specs.Words.{counts_of};

use crate::key::Key;
use doc_page_parts::failure::Memory;
use doc_page_parts::heap::{Heap, String, Vec};

/// The words of both lists in the order of their bytes.
pub(crate) fn sorted_keys<'a>(
    plain: Vec<Key<'a>>,
    others: &'a [String],
) -> Result<Vec<Key<'a>>, Memory>
    ensures all { IfOk result (λ keys.
        IsPermutation (plain.entry.items ++ mapped string_bytes others.now) keys.items) }
    ensures sorted { IfOk result (λ keys. IsSorted (slice_cmp nat_cmp) keys.items) }
{
    let mut keys = plain;
    for word in others {
        keys.push(Key::new(word.as_str()))?;
    }
    keys.sort_unstable();
    Ok(keys)
}

/// Sorted words, each once with how often it stands among them.
pub(crate) fn tallied<'a>(heap: Heap, keys: &[Key<'a>]) -> Result<Vec<(&'a str, u64)>, Memory>
    requires { IsSorted (slice_cmp nat_cmp) keys.now }
    ensures { IfOk result (λ entries. shown entries.items ≡ map.entries (counts_of keys.now)) }
{
    let mut entries = Vec::new(heap);
    let mut at = 0;
    'words: while at < keys.len() {
        let word = &keys[at];
        let same = same_len(word, &keys[at + 1..]);
        entries.push((word.text(), (same as u64).saturating_add(1)))?;
        at += same + 1;
    }
    Ok(entries)
}

/// How many words at the front are this one.
fn same_len(word: &Key<'_>, keys: &[Key<'_>]) -> usize
    ensures value { result ≡ prefix_len (bytes_eq word.now) keys.now }
    ensures within { result ≤ length keys.now }
{
    keys.iter().take_while(|key| word == *key).count()
}
