//! The one heap of the product, and the strings, lists and maps on it.
//!
//! The memory of the product comes from the system's allocator, which may refuse each growth: whatever takes memory can
//! answer that there was none.

use std::alloc::Global;

/// The heap, as a handle that is copied freely and takes no room.
pub type Heap = Global;

/// A string on the heap, as by `String::from_str(heap, "text")?`.
pub type String = std::string::String<Heap>;

/// A list on the heap, as by `Vec::new(heap)`.
pub type Vec<T> = std::vec::Vec<T, Heap>;

/// A map on the heap, in the order of its keys, as by `BTreeMap::new(heap)`.
pub type BTreeMap<K, V> = std::collections::BTreeMap<K, V, Heap>;
