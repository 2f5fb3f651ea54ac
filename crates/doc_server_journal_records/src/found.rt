//! What a reading found.

use doc_page_parts::bytes::Bytes;
use doc_page_parts::list::List;

/// What the bytes of a journal say.
#[derive(Drop)]
pub struct Found {
    /// The texts of its records, in their order.
    pub texts: List<Bytes>,
    /// Where the closed gate stands. What stands behind it was torn, or was never written.
    pub end: usize,
    /// How many bytes the last record takes with its gate, none where there is no record.
    pub last: usize,
    /// The digest of the last record, or what stands in for it.
    pub digest: [u8; 32],
}
