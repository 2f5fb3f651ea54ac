//! What was torn behind the closed gate of a journal.

ghost use Rattle.std.specs.Prelude.{◌≡◌, ◌≤◌, ◌+◌, length, take, drop};
ghost use Rattle.doc_server_journal_records.specs.Readings.{IsFound};

use doc_server_journal_records::found::Found;

/// What keeps the bytes of a torn record before they are zeroed.
pub trait KeepTorn {
    /// Keeps what stood behind so many records.
    fn keep(&mut self, records: usize, bytes: &[u8]);
}

/// Keeps nothing.
#[derive(Clone, Copy, Drop)]
pub struct Unkept;

impl KeepTorn for Unkept {
    fn keep(&mut self, _records: usize, _bytes: &[u8]) {}
}

/// What stands behind the closed gate, up to its last byte that isn't 0.
pub fn torn_bytes<'a>(bytes: &'a [u8], found: &Found) -> &'a [u8]
    requires { IsFound bytes.now found.now }
    ensures { result.now ≡ take (length result.now) (drop (found.now.end + 1) bytes.now) }
{
    let tail = &bytes[found.end + 1..];
    &tail[..torn_len(tail)]
}

/// How many bytes there are up to the last that isn't 0.
fn torn_len(bytes: &[u8]) -> usize
    ensures { result ≤ length bytes.now }
{
    match bytes.iter().rposition(|byte| *byte != 0) {
        Some(last) => last + 1,
        None => 0,
    }
}
