//! How entity tags are compared.

/// How two entity tags are compared (RFC 9110, section 8.8.3.2).
#[derive(Clone, Copy, Debug, PartialEq, Eq)]
pub enum Comparison {
    /// A weak one is never the same.
    Strong,
    /// Whether they are weak doesn't count.
    Weak,
}
