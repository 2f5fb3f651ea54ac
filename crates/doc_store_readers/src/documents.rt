//! The readers of a TOML document.

ghost use Rattle.std.specs.Prelude.{◌≡◌, ◌≢◌, Ok, Err, IfOk, IfErr};
ghost use Rattle.toml.specs.View.{table_view};
ghost use Rattle.doc_store_readers.specs.Readers.{readers_of_document};

use crate::entries::entries_of;
use crate::listing::readers_of_entries;
use crate::readers::{Readers, ReadersError};
use doc_page_parts::heap::Heap;
use toml::Table;

/// The readers of a document that was read already, as [`Readers::from_toml`] reads them. It stands apart from `Readers`, so that a
/// crate whose contracts name the readers needn't know what a TOML document is.
pub fn readers_of_document(heap: Heap, document: &Table) -> Result<Readers, ReadersError>
    ensures read { IfOk result
        (λ readers. readers_of_document (table_view document.now) ≡ Ok readers) }
    ensures refused { IfErr result
        (λ e. e ≢ ReadersError.Memory → readers_of_document (table_view document.now) ≡ Err e) }
{
    let entries = entries_of(heap, document)?;
    readers_of_entries(heap, entries)
}
