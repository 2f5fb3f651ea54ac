//! Why there is no cache.

use doc_page_parts::failure::Memory;
use thiserror::Error;

/// Why no cache could be made.
#[derive(Clone, Copy, Debug, Error)]
pub enum CacheError {
    /// Not 1 to 4,096 texts.
    #[error("a cache keeps 1 to 4096 texts")]
    BadCapacity,
    #[error("{}", Memory)]
    Memory,
}

impl From<Memory> for CacheError {
    ghost use Rattle.std.specs.Prelude.{◌≡◌};
    ghost use Rattle.doc_cache.specs.declared.failure.CacheError.TheVariants as refusals;

    ghost from_gives = { λ _ e. e ≡ refusals.Memory };

    fn from(_e: Memory) -> CacheError {
        CacheError::Memory
    }
}
