//! Bytes that are bytes.

ghost use Rattle.doc_store.specs.Store.{set_page};
ghost use Rattle.doc_server_script.specs.PlainLines.{AreBytes, HasBytes};

use doc_page_parts::path::Path;
use doc_store::page::Page;

/// Each of them is a byte. Their type has it so, and this does nothing but say it.
pub fn are_bytes(bytes: &[u8])
    ensures { AreBytes bytes.now }
{
    let _ = bytes;
}

/// The bytes of a path are.
pub fn path_bytes(path: &Path)
    ensures { AreBytes path.now }
{
    are_bytes(path.text().as_bytes());
}

/// Those of the edit that puts a page are.
pub fn page_bytes(path: &Path, page: &Page)
    ensures { HasBytes (set_page path.now page.now.page) }
{
    path_bytes(path);
    let _ = page.groups().names();
    are_bytes(page.text().as_bytes());
}
