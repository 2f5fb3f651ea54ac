//! The lines of a table of character references.

ghost use Rattle.std.specs.Prelude.{◌≡◌, ◌++◌, ◌∷◌, [], not, true, take, option_map, IfOk, IfErr, None, bytes_eq};
ghost use Rattle.doc_page_parts.specs.Lines.{lines};
ghost use Rattle.doc_rules.specs.Entities.{built_in};
ghost use Rattle.doc_rules.specs.Escapes.{find_entity};
ghost use Rattle.doc_lines.specs.Entities.{characters, entities_shown, has_ascii_names};
ghost use Rattle.doc_lines.specs.Tables.{bad_line, entities_in, entity_of, line_contradicts, twice_line, with_entities, MayRefuse};

use super::TableError;
use super::built_in::find_built_in;
use super::row::{entity_of, is_row};
use crate::lines::Lines;
use doc_page_parts::failure::Memory;
use doc_page_parts::heap::{BTreeMap, Heap, String};

/// The number of the first line that is no row, from 1.
pub fn bad_line(text: &str) -> Option<usize>
    ensures { result ≡ bad_line 1 (lines text.now) }
{
    let length = text.len();
    let mut number = 0;
    for line in Lines::new(text) {
        prove!(number < length);
        number += 1;
        if !is_row(line) {
            return Some(number);
        }
    }
    None
}

/// The entities of the lines that are not built in, by their names. `Twice` is the first line that contradicts the built-in names
/// or a line before it.
pub fn added_of(
    heap: Heap,
    text: &str,
) -> Result<BTreeMap<String, (char, Option<char>)>, TableError>
    ensures consistent { IfOk result (λ added. twice_line built_in 1 (lines text.now) ≡ None) }
    ensures added { IfOk result (λ added. entities_shown added.entries
        ≡ with_entities [] (entities_in (lines text.now))) }
    ensures ascii { IfOk result (λ added. has_ascii_names (entities_shown added.entries) ≡ true) }
    ensures refused { IfErr result (MayRefuse (twice_line built_in 1 (lines text.now))) }
{
    let length = text.len();
    let mut added = BTreeMap::new(heap);
    let mut number = 0;
    for line in Lines::new(text) {
        prove!(number < length);
        number += 1;
        if !add_line(heap, &mut added, line)? {
            return Err(TableError::Twice(number));
        }
    }
    Ok(added)
}

/// Adds the entity of a line, where its name is new. Answers `false` where it contradicts what stands.
fn add_line(
    heap: Heap,
    added: &mut BTreeMap<String, (char, Option<char>)>,
    line: &str,
) -> Result<bool, Memory>
    ensures consistent { IfOk result (λ kept. kept
        ≡ not (line_contradicts (built_in ++ entities_shown added.old.entries)
        (entity_of line.now))) }
    ensures added { IfOk result (λ kept. kept ≡ true
        → entities_shown added.new.entries
        ≡ with_entities (entities_shown added.old.entries) (entities_in (line.now ∷ []))) }
    ensures ascii { has_ascii_names (entities_shown added.old.entries) ≡ true
        → has_ascii_names (entities_shown added.new.entries) ≡ true }
{
    let Some((name, characters)) = entity_of(line) else {
        return Ok(true);
    };
    if let Some(those) = find_either(added, name) {
        return Ok(are_same(those, characters));
    }
    added.insert(String::from_str(heap, name)?, characters)?;
    Ok(true)
}

/// The characters of a name that is built in or added.
pub fn find_either(
    added: &BTreeMap<String, (char, Option<char>)>,
    name: &str,
) -> Option<(char, Option<char>)>
    ensures { option_map characters result
        ≡ find_entity (built_in ++ entities_shown added.now.entries) name.now }
{
    if let Some(characters) = find_built_in(name) {
        return Some(characters);
    }
    find_added(added, name)
}

/// The characters of a name that is added.
fn find_added(
    added: &BTreeMap<String, (char, Option<char>)>,
    name: &str,
) -> Option<(char, Option<char>)>
    ensures { option_map characters result
        ≡ find_entity (entities_shown added.now.entries) name.now }
{
    added.get(name).copied()
}

fn are_same(some: (char, Option<char>), others: (char, Option<char>)) -> bool
    ensures { result ≡ bytes_eq (characters some) (characters others) }
{
    some == others
}

/// The number of the first line, from 1, that contradicts the built-in names or a line before it. Takes no memory, and compares each
/// line with each line before it.
pub fn twice_line(text: &str) -> Option<usize>
    ensures { result ≡ twice_line built_in 1 (lines text.now) }
{
    let length = text.len();
    let mut number = 0;
    for line in Lines::new(text) {
        prove!(number < length);
        if contradicts_before(text, number, line) {
            return Some(number + 1);
        }
        number += 1;
    }
    None
}

/// Whether a line contradicts the built-in names or one of the first `number` lines.
fn contradicts_before(text: &str, number: usize, line: &str) -> bool
    ensures { result ≡ line_contradicts (built_in ++ entities_in (take number (lines text.now)))
        (entity_of line.now) }
{
    let Some((name, characters)) = entity_of(line) else {
        return false;
    };
    match find_before(text, number, name) {
        None => false,
        Some(those) => !are_same(those, characters),
    }
}

/// The characters that a name has among the built-in names and the first `number` lines.
fn find_before(text: &str, number: usize, name: &str) -> Option<(char, Option<char>)>
    ensures { option_map characters result
        ≡ find_entity (built_in ++ entities_in (take number (lines text.now))) name.now }
{
    if let Some(characters) = find_built_in(name) {
        return Some(characters);
    }
    find_in_lines(text, number, name)
}

/// The characters that a name has in the first `number` lines.
fn find_in_lines(text: &str, number: usize, name: &str) -> Option<(char, Option<char>)>
    ensures { option_map characters result
        ≡ find_entity (entities_in (take number (lines text.now))) name.now }
{
    let mut left = number;
    for line in Lines::new(text) {
        if left == 0 {
            return None;
        }
        left -= 1;
        if let Some(characters) = find_in_line(line, name) {
            return Some(characters);
        }
    }
    None
}

/// The characters that a name has in a line.
fn find_in_line(line: &str, name: &str) -> Option<(char, Option<char>)>
    ensures { option_map characters result ≡ find_entity (entities_in (line.now ∷ [])) name.now }
{
    let Some((other, characters)) = entity_of(line) else {
        return None;
    };
    if other == name {
        return Some(characters);
    }
    None
}
