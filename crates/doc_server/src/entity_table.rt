//! The table of entities of a site.

ghost use Rattle.doc_page_parts.specs.Refusals.{IsAnswer};
ghost use Rattle.doc_server.specs.EntityTables.{rules_of};

use doc_lines::entities::{Entities, TableError};
use doc_page_parts::heap::Heap;
use doc_server_streams::fault::Fault;

/// The built-in character references and those of a table (`Entities::from_table`). `BadTable` says that a row of it is bad, or gives a
/// name other characters.
pub fn entities_of(heap: Heap, text: &str) -> Result<Entities, Fault>
    ensures { IsAnswer Fault.Memory (rules_of text.now) result }
{
    match Entities::from_table(heap, text) {
        Ok(entities) => Ok(entities),
        Err(TableError::Memory) => Err(Fault::Memory),
        Err(TableError::BadRow(_)) => Err(Fault::BadTable),
        Err(TableError::Twice(_)) => Err(Fault::BadTable),
    }
}
