//! Groups that readers and guests have.

ghost use Rattle.std.specs.Prelude.{◌≡◌, ◌++◌, IfOk, OnOk, Some};
ghost use Rattle.std.specs.FinMap as map;
ghost use Rattle.std.specs.List.{flat_map};
ghost use Rattle.toml.specs.View.{items_view, table_view, view};
ghost use Rattle.doc_server_lint.specs.Warnings.{groups_of, guest_groups, held_groups, unheld_group, unheld_groups, with_groups};
ghost use Rattle.doc_server_lint.specs.Warnings.{with_texts};

use crate::rows::Rows;
use doc_page_parts::failure::Memory;
use doc_page_parts::heap::{Heap, Vec};
use doc_page_parts::text::Text;
use doc_server_config::browsing_keys::groups_of;
use doc_server_config::table::value_at;
use doc_server_lint_faults::finding::Finding;
use doc_server_lint_faults::place::Place;
use doc_server_lint_faults::table_faults::push_told;
use doc_server_lint_faults::tables::rows_at;
use doc_server_lint_faults::what::What;
use doc_store::groups::Groups;
use doc_store_readers::tables::groups_in;
use toml::{Table, Value};

/// The groups that a reader or a guest has.
pub(crate) fn held_groups(heap: Heap, document: &Table) -> Result<Rows, Memory>
    ensures { IfOk result (λ held. held ≡ held_groups (table_view document.now)) }
{
    let mut held = groups_of_readers(heap, rows_at(document, "reader"))?;
    let Some(browse) = value_at(document, "browse") else {
        return Ok(held);
    };
    let guests = guest_groups(heap, browse)?;
    insert_all(heap, &mut held, guests.names(), 0)?;
    Ok(held)
}

fn groups_of_readers(heap: Heap, rows: &[Value]) -> Result<Rows, Memory>
    ensures { IfOk result (λ held. held ≡ with_groups map.empty 1 (items_view rows.now)) }
{
    let mut held = Rows::none(heap);
    for (index, row) in rows.iter().enumerate() {
        let groups = good_groups(heap, row)?;
        insert_all(heap, &mut held, groups.names(), index + 1)?;
    }
    Ok(held)
}

/// Says that a row has some texts.
fn insert_all(heap: Heap, rows: &mut Rows, texts: &[Text], row: usize) -> Result<(), Memory>
    ensures { OnOk result (rows.new ≡ with_texts rows.old texts.now row) }
{
    for text in texts {
        rows.insert(text.copy(heap)?, row)?;
    }
    Ok(())
}

/// The groups of a row, or none where they are bad.
fn good_groups(heap: Heap, row: &Value) -> Result<Groups, Memory>
    ensures { IfOk result (λ groups. groups ≡ groups_of (view row.now)) }
{
    match groups_in(heap, row)? {
        Some(groups) => Ok(groups),
        None => Ok(Groups::none(heap)),
    }
}

/// The groups of guests, or none where they are bad.
fn guest_groups(heap: Heap, browse: &Value) -> Result<Groups, Memory>
    ensures { IfOk result (λ groups. groups ≡ guest_groups (Some (view browse.now))) }
{
    let Some(value) = browse.get("guest") else {
        return Ok(Groups::none(heap));
    };
    match groups_of(heap, value)? {
        Some(groups) => Ok(groups),
        None => Ok(Groups::none(heap)),
    }
}

/// Adds what is told of the groups of a row that nobody has.
pub(crate) fn push_unheld_groups(
    heap: Heap,
    found: &mut Vec<Finding>,
    held: &Rows,
    place: Place,
    row: &Value,
) -> Result<(), Memory>
    ensures { OnOk result (found.new.items ≡ found.old.items
        ++ unheld_groups held.now place (view row.now)) }
{
    let groups = good_groups(heap, row)?;
    push_unheld(heap, found, held, place, groups.names())
}

fn push_unheld(
    heap: Heap,
    found: &mut Vec<Finding>,
    held: &Rows,
    place: Place,
    names: &[Text],
) -> Result<(), Memory>
    ensures { OnOk result (found.new.items ≡ found.old.items
        ++ flat_map (unheld_group held.now place) names.now) }
{
    for name in names {
        push_unheld_group(heap, found, held, place, name)?;
    }
    Ok(())
}

fn push_unheld_group(
    heap: Heap,
    found: &mut Vec<Finding>,
    held: &Rows,
    place: Place,
    name: &Text,
) -> Result<(), Memory>
    ensures { OnOk result (found.new.items ≡ found.old.items
        ++ unheld_group held.now place name.now) }
{
    if held.has(name) {
        return Ok(());
    }
    let what = What::Unheld(name.copy(heap)?);
    push_told(heap, found, false, place, Some("groups"), Some(what))
}
