//! The file of a journal, found again by its name.

use doc_server_journal::memory::MemoryDevice;

/// A device by whose name its journal is found again, and which tells people whether the journal has room.
pub trait NamedFile {
    /// Whether the name that it was opened by still leads to it.
    fn is_found(&self) -> bool;

    /// Tells that the journal has room for puts again, or that it hasn't any more.
    fn tell_room(&self, has_room: bool);
}

impl NamedFile for MemoryDevice {
    fn is_found(&self) -> bool {
        true
    }

    fn tell_room(&self, _has_room: bool) {}
}
