//! Bytes that contracts see as a list.

ghost use Rattle.std.specs.Prelude.{◌≡◌, ◌==◌, ◌++◌, [], OnOk, OnErr, IfOk};
ghost use Rattle.std.specs.Cmp;
ghost use Rattle.std.specs.Cmp.{on_equiv};
ghost use Rattle.std.specs.Cmp.Lexicographic.{pointwise, nat_list_eq_equiv};

use crate::failure::Memory;
use crate::heap::{Heap, Vec};
use std::marker::Model;

/// Bytes, which need not be a text. Contracts see their list; they are equal by it.
#[derive(Debug, Drop)]
pub struct Bytes {
    inner: Vec<u8>,
}

impl Model for Bytes {
    ghost use Rattle.std.specs.Prelude.{ℕ, List as Seq};

    ghost Value = { Seq ℕ };

    ghost view = { λ b. b.inner.items };
}

impl Bytes {
    pub fn new(inner: Vec<u8>) -> Self
        ensures { result ≡ inner.items }
    {
        Bytes { inner }
    }

    pub fn get(&self) -> &[u8]
        ensures { result.now ≡ self.now }
    {
        self.inner.as_slice()
    }

    pub fn into_inner(self) -> Vec<u8>
        ensures { result.items ≡ self }
    {
        let Bytes { inner } = self;
        inner
    }

    /// Bytes of their own, equal to borrowed ones.
    pub fn copy_of(heap: Heap, bytes: &[u8]) -> Result<Self, Memory>
        ensures { IfOk result (λ copy. copy ≡ bytes.now) }
    {
        Ok(Bytes::new(Vec::from_slice(heap, bytes)?))
    }

    /// Adds bytes at the end.
    pub fn extend(&mut self, more: &[u8]) -> Result<(), Memory>
        ensures ok { OnOk result (self.new ≡ self.old ++ more.now) }
        ensures err { OnErr result (self.new ≡ self.old) }
    {
        self.inner.extend_from_slice(more)?;
        Ok(())
    }

    /// Drops all bytes and keeps their room.
    pub fn clear(&mut self)
        ensures { self.new ≡ [] }
    {
        self.inner.clear();
    }
}

impl PartialEq for Bytes {
    ghost eq = { pointwise ◌==◌ };

    ghost laws = { Cmp.partial_equiv_from_equiv nat_list_eq_equiv };

    fn eq(&self, other: &Self) -> bool {
        self.inner == other.inner
    }
}

impl Eq for Bytes {
    ghost laws = { nat_list_eq_equiv };
}
