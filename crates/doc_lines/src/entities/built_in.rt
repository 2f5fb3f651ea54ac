//! The character references that are built in.

ghost use Rattle.std.specs.Prelude.{◌≡◌, ◌<◌, ◌≤◌, ◌+◌, true, All, length, map, option_map};
ghost use Rattle.std.specs.List.{list_all};
ghost use Rattle.doc_rules.specs.Entities.{built_in};
ghost use Rattle.doc_rules.specs.Escapes.{find_entity};
ghost use Rattle.doc_lines.specs.Entities.{characters, is_within, row_entity, Rises};

use super::names::{NAMES, ROWS, Row};
use std::cmp::Ordering;

/// The characters of a name that is built in.
pub fn find_built_in(name: &str) -> Option<(char, Option<char>)>
    ensures { option_map characters result ≡ find_entity built_in name.now }
{
    find_in(ROWS, name.as_bytes())
}

/// The characters of a name among rows in the order of their names, by binary search.
fn find_in(rows: &[Row], name: &[u8]) -> Option<(char, Option<char>)>
    requires within { list_all (is_within NAMES.now) rows.now ≡ true }
    requires order { Rises (map (row_entity NAMES.now) rows.now) }
    ensures { option_map characters result
        ≡ find_entity (map (row_entity NAMES.now) rows.now) name.now }
{
    let middle = rows.len() / 2;
    if middle == rows.len() {
        return None;
    }
    let row = rows[middle];
    match name_of(row).cmp(name) {
        Ordering::Less => find_in(&rows[middle + 1..], name),
        Ordering::Equal => Some(row.2),
        Ordering::Greater => find_in(&rows[..middle], name),
    }
}

fn name_of(row: Row) -> &'static [u8]
    requires { is_within NAMES.now row ≡ true }
    ensures { result.now ≡ (row_entity NAMES.now row).0 }
{
    &NAMES[row.0..row.0 + row.1]
}
