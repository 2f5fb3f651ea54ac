//! A file, and what the system tells of it.

use doc_page_parts::failure::Memory;
use doc_page_parts::heap::{Heap, String};
use std::fs::{Metadata, metadata};
use std::os::unix::fs::MetadataExt;
use std::rt::Files;

/// A file that was seen. Two that are equal have one name, and between the looks that found them the file hasn't changed: that
/// the system tells each change of a file by its times is trusted.
#[derive(Drop, PartialEq, Eq, PartialOrd, Ord)]
pub struct Seen {
    /// Its name, from the folder that was looked into, where it was found in one.
    pub name: String,
    stamp: Stamp,
}

/// What the system tells of a file: which one it is, how long, and when it was changed last.
#[derive(Clone, Copy, PartialEq, Eq, PartialOrd, Ord)]
struct Stamp {
    device: u64,
    inode: u64,
    len: u64,
    modified: i64,
    modified_nanos: i64,
    changed: i64,
    changed_nanos: i64,
}

impl Seen {
    /// A file of this name, of which the system tells this.
    pub(crate) fn new(name: String, found: &Metadata) -> Seen {
        let stamp = Stamp {
            device: found.dev(),
            inode: found.ino(),
            len: found.len(),
            modified: found.mtime(),
            modified_nanos: found.mtime_nsec(),
            changed: found.ctime(),
            changed_nanos: found.ctime_nsec(),
        };
        Seen { name, stamp }
    }

    /// The file of this name as it is now; none where the system tells of none.
    pub fn of_file<R: Files>(rt: &R, heap: Heap, name: &str) -> Result<Option<Seen>, Memory> {
        match metadata(rt, name) {
            Ok(found) => Ok(Some(Seen::new(String::from_str(heap, name)?, &found))),
            Err(_) => Ok(None),
        }
    }

    /// How many bytes it had.
    pub(crate) fn len(&self) -> u64 {
        self.stamp.len
    }
}
