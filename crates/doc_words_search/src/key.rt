//! Words as they are sorted.

ghost use Rattle.std.specs.Prelude.{◌≡◌, ◌==◌, ◌+◌, ◌*◌, ◌≤◌, Some, refl, slice_index_or};
ghost use Rattle.std.specs.Cmp;
ghost use Rattle.std.specs.Cmp.{on_equiv, on_total, on_po};
ghost use Rattle.std.specs.Cmp.Lexicographic.{pointwise, slice_cmp, nat_list_eq_equiv, nat_list_cmp_total, texts_ties, texts_po};
ghost use Rattle.std.specs.Ordering.{nat_cmp};
ghost use Rattle.doc_words_search.specs.Fronts.{AreBytes, front_number};

use std::cmp::Ordering;
use std::marker::Model;

/// A word that is sorted among others, with its first 8 bytes as a number: two words whose numbers differ are told apart by these.
/// Contracts see its bytes; it is equal and ordered by them.
#[derive(Drop)]
pub(crate) struct Key<'a> {
    front: u64,
    text: &'a str,
}

impl<'a> Model for Key<'a> {
    ghost use Rattle.std.specs.Prelude.{◌≡◌, ℕ, List as Seq};
    ghost use Rattle.doc_words_search.specs.Fronts.{AreBytes, front_number};

    ghost Value = { Seq ℕ };

    ghost view = { λ k. k.text.now };

    ghost invariant = { λ k. (k.front ≡ front_number 8 k.text.now) × AreBytes k.text.now };
}

impl<'a> Key<'a> {
    pub(crate) fn new(text: &'a str) -> Key<'a>
        ensures { result ≡ text.now }
    {
        Key {
            front: front_of(text.as_bytes()),
            text,
        }
    }

    pub(crate) fn text(&self) -> &'a str
        ensures { result.now ≡ self.now }
    {
        self.text
    }
}

impl<'a> PartialEq for Key<'a> {
    ghost eq = { pointwise ◌==◌ };

    ghost laws = { Cmp.partial_equiv_from_equiv nat_list_eq_equiv };

    fn eq(&self, other: &Self) -> bool {
        if self.front != other.front {
            return false;
        }
        self.text == other.text
    }
}

impl<'a> Eq for Key<'a> {
    ghost laws = { nat_list_eq_equiv };
}

impl<'a> PartialOrd for Key<'a> {
    ghost partial_cmp = { λ x y. Some (slice_cmp nat_cmp x y) };

    ghost laws = { texts_po };

    fn partial_cmp(&self, other: &Self) -> Option<Ordering> {
        Some(self.cmp(other))
    }
}

impl<'a> Ord for Key<'a> {
    ghost cmp = { slice_cmp nat_cmp };

    ghost total = { nat_list_cmp_total };

    ghost matches_partial_cmp = { λ x y. refl };

    ghost matches_eq = { texts_ties };

    fn cmp(&self, other: &Self) -> Ordering {
        if self.front != other.front {
            return self.front.cmp(&other.front);
        }
        self.text.cmp(other.text)
    }
}

/// The first 8 bytes as a number, the first one highest; zeros stand for those that there aren't.
fn front_of(bytes: &[u8]) -> u64
    ensures value { result ≡ front_number 8 bytes.now }
    ensures bytes { AreBytes bytes.now }
{
    u64::from(four_at(bytes, 0)) * 0x1_0000_0000 + u64::from(four_at(bytes, 4))
}

/// Four bytes from a place on as a number.
fn four_at(bytes: &[u8], at: usize) -> u32
    requires { at ≤ 4 }
    ensures { result ≡ ((slice_index_or bytes.now at 0 * 256
        + slice_index_or bytes.now (at + 1) 0) * 256
        + slice_index_or bytes.now (at + 2) 0) * 256 + slice_index_or bytes.now (at + 3) 0 }
{
    let first = u32::from(byte_at(bytes, at)) * 0x100 + u32::from(byte_at(bytes, at + 1));
    let last = u32::from(byte_at(bytes, at + 2)) * 0x100 + u32::from(byte_at(bytes, at + 3));
    first * 0x1_0000 + last
}

/// The byte at a place, 0 where there is none.
fn byte_at(bytes: &[u8], at: usize) -> u8
    ensures { result ≡ slice_index_or bytes.now at 0 }
{
    match bytes.get(at) {
        Some(byte) => *byte,
        None => 0,
    }
}
