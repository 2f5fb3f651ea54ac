//! What a host keeps of a torn record.

use crate::hosting::host::Host;
use doc_server_journal::torn::KeepTorn;

/// A host, and the name of a journal there.
#[derive(Clone, Copy, Drop)]
pub struct TornOnHost<'a, H> {
    pub host: &'a H,
    pub name: &'a str,
}

impl<H: Host> KeepTorn for TornOnHost<'_, H> {
    fn keep(&mut self, records: usize, bytes: &[u8]) {
        self.host.keep_torn(self.name, records, bytes);
    }
}
