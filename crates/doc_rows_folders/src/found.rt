//! The first and the last of what stands in a folder.

ghost use Rattle.std.specs.Prelude.{◌≡◌, true, Some, IfOk};
ghost use Rattle.doc_people.specs.Folders.{keys};
ghost use Rattle.doc_rows.specs.Looks.{first_from, last_before};
ghost use Rattle.doc_rows.specs.Rows.{IsRows};
ghost use Rattle.doc_rows_folders.specs.Starts.{is_whole};
ghost use Rattle.doc_store_readers.specs.Sites.{Site, view_of};

use crate::starts::{first_start, key_found, last_start};
use doc_page_parts::failure::Memory;
use doc_page_parts::heap::Heap;
use doc_page_parts::text::Text;
use doc_rows::rows::Rows;
use doc_store_readers::reader::Reader;

/// What stands in a folder and doesn't come before a text: the first, found by one look into each row of the reader.
pub fn first_key(
    heap: Heap,
    rows: &Rows,
    reader: &Reader,
    folder: &str,
    from: &str,
) -> Result<Option<Text>, Memory>
    ensures { (site : Site) → IsRows site.pages rows.now → IfOk result (λ found.
        found ≡ first_from from.now (keys (view_of site (Some reader.now)) folder.now)) }
{
    let start = first_start(heap, folder, from)?;
    key_found(heap, folder, rows.first_seen(reader, &start))
}

/// What stands in a folder and comes before a text: the last, found so.
pub fn last_key(
    heap: Heap,
    rows: &Rows,
    reader: &Reader,
    folder: &str,
    before: &str,
) -> Result<Option<Text>, Memory>
    requires { is_whole folder.now ≡ true }
    ensures { (site : Site) → IsRows site.pages rows.now → IfOk result (λ found.
        found ≡ last_before before.now (keys (view_of site (Some reader.now)) folder.now)) }
{
    let start = last_start(heap, folder, before)?;
    key_found(heap, folder, rows.last_seen(reader, &start))
}
