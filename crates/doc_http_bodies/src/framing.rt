//! How a body is framed.

/// How many bytes a body may have.
pub const BODY_LIMIT: usize = 1048576;

/// How a body is framed (RFC 9112, section 6).
#[derive(Clone, Copy, Debug, PartialEq, Eq)]
pub enum Framing {
    /// So many bytes.
    Sized(usize),
    /// Chunks, a trailer behind them.
    Chunked,
}
