//! Texts under keys, so many of them.

ghost use Rattle.std.specs.Prelude.{◌≡◌, false, IsTrue, option_copied};
ghost use Rattle.std.specs.Borrow.{sem};
ghost use Rattle.doc_page_parts.specs.Refusals.{IsAnswer};

use crate::failure::CacheError;
use crate::key::Key;
use doc_page_parts::heap::Heap;
use doc_page_parts::text::Text;
use lru::{DefaultHasher, LruCache};
use std::marker::Model;
use std::num::NonZeroUsize;

/// The most texts that a cache keeps.
const MOST: usize = 4096;

/// Texts under keys, the one asked for or kept last in front. Contracts see them in this order.
pub struct PageCache {
    pages: LruCache<Key, Text, DefaultHasher, Heap>,
}

/// Written out, so that it is proved here once: what a derived drop does is proved wherever a value is let go.
impl Drop for PageCache {
    fn drop(self) {
        let PageCache { pages: _ } = self;
    }
}

impl Model for PageCache {
    ghost use Rattle.doc_cache.specs.Caches.{Cached, cached};

    ghost Value = { Cached };

    ghost view = { λ c. cached c.pages.entries c.pages.cap };
}

impl PageCache {
    ghost use Rattle.doc_cache.specs.Caches.{cache_of, kept, looked, text_under};
    ghost use Rattle.doc_cache.specs.Lending.{EndsAs};

    /// An empty cache of so many texts, 1 to 4,096. Room for them is taken as they come.
    pub fn new(heap: Heap, capacity: usize) -> Result<PageCache, CacheError>
        ensures { IsAnswer CacheError.Memory (cache_of capacity) result }
    {
        if capacity > MOST {
            return Err(CacheError::BadCapacity);
        }
        let Some(capacity) = NonZeroUsize::new(capacity) else {
            return Err(CacheError::BadCapacity);
        };
        match LruCache::sparse(heap, capacity) {
            Ok(pages) => Ok(PageCache { pages }),
            Err(_) => Err(CacheError::Memory),
        }
    }

    /// The text under a key, which goes to the front. Takes no memory.
    pub fn look(&mut self, key: &Key) -> Option<&str>
        ensures* state { sem 𝓛 (EndsAs self.entry (looked self.old key.now)) }
        ensures value { option_copied result ≡ text_under self.old key.now }
    {
        self.pages.promote(key);
        let text = self.pages.peek(key)?;
        Some(text.get())
    }

    /// Keeps a text under a key, in front: in place of the one under this key, or else, where the
    /// cache is full, of the last. False where memory was refused: the text is dropped.
    pub fn keep(&mut self, key: Key, text: Text) -> bool
        ensures kept { IsTrue result → self.new ≡ kept self.old key text }
        ensures dropped { result ≡ false → self.new ≡ self.old }
    {
        self.pages.put(key, text).is_ok()
    }
}
