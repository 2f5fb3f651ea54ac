//! What a stream answers where a call of it failed.

use thiserror::Error;

/// A read, a write or a flush failed.
#[derive(Clone, Copy, Debug, PartialEq, Eq, Error)]
#[error("a stream failed")]
pub struct StreamFault;
