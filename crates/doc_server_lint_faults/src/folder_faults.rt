//! The faults of folders.

ghost use Rattle.std.specs.Prelude.{◌≡◌, ◌++◌, OnOk};
ghost use Rattle.toml.specs.View.{items_view};
ghost use Rattle.doc_server_lint_faults.specs.TableFaults.{faults_of_folders};

use crate::finding::Finding;
use crate::place::Place;
use crate::rule::FOLDER_KEYS;
use crate::table_faults::push_faults_of_closed;
use doc_page_parts::failure::Memory;
use doc_page_parts::heap::{Heap, Vec};
use toml::Value;

/// Adds the faults of all folders.
pub fn push_faults_of_folders(
    heap: Heap,
    found: &mut Vec<Finding>,
    rows: &[Value],
) -> Result<(), Memory>
    ensures { OnOk result (found.new.items ≡ found.old.items
        ++ faults_of_folders 1 (items_view rows.now)) }
{
    for (index, row) in rows.iter().enumerate() {
        push_faults_of_closed(heap, found, Place::Folder(index + 1), FOLDER_KEYS, row)?;
    }
    Ok(())
}
